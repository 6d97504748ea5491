// The map: making, one command, a run, checking. It is for keys of 32 bits (`K` is u32), or of 64 (u64). These calls assume nothing of any
// word that they are lent: what they cannot use they refuse, and then no word has changed. An arena does not say which keys it is for.
// (Calls of one line each: they are the public names, and edits that must fail aim at them.)
#![tactic(auto)]

ghost use Rattle.std.specs.Prelude.{◌≡◌};
ghost use Rattle.rules.specs.Edition.{edition};
ghost use Rattle.rules.specs.Reading.{as_map};
ghost use Rattle.rules.specs.Calls.{make, One, Run};
ghost use Rattle.formed.specs.Verdict.{Verdict};
ghost use Rattle.heads.specs.Worded.{returned};
ghost use Rattle.calls.specs.Told.{told};

pub use calls::{Answer, Code, Key, Refusal};
use calls::{Command, Reading};

// A new arena of n slots in the lent words.
pub fn make<K: Key>(a: &mut [u32], n: u32) -> Result<(), Refusal>
    ensures { (returned result ≡ (make (edition K.WORDS) n a.old).returned)
        × (a.new ≡ (make (edition K.WORDS) n a.old).arena) }
{
    calls::make::<K>(a, n)
}

// One command on an arena that is checked first. (Its number is a word: `One` speaks of any.)
pub fn one<K: Key>(a: &mut [u32], number: u32, key: K, value: u32) -> Answer<K>
    ensures { One (edition K.WORDS) as_map number (K.number key) value a.old
        (record { answer = told K.number K.WORDS result; arena = a.new }) }
{
    calls::one(a, Reading::AsMap, Command::numbered(number, key, value))
}

// A run: the arena is checked once, then the commands are done in order.
pub fn run<K: Key>(a: &mut [u32], list: &[u32], answers: &mut [u32]) -> Result<(), Refusal>
    ensures { Run (edition K.WORDS) as_map list.now a.old answers.old
        (record { returned = returned result; arena = a.new; answers = answers.new }) }
{
    calls::run::<K>(a, Reading::AsMap, list, answers)
}

// Is the arena well formed?
pub fn check<K: Key>(a: &[u32]) -> bool
    ensures { Verdict K.WORDS a.now result }
{
    formed::check::<K>(a)
}
