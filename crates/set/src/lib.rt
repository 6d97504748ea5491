// The ordered set of keys of 32 or of 64 bits: the map's commands, read as a set reads them. A key has no value here: an insert stores 0,
// an answer tells 0, and command 2, which writes a value, is unknown. These calls assume nothing of any word that they are lent: what they
// cannot use they refuse, and then no word has changed. An arena is made, and refused, as the map's.
// (Calls of one line each: they are the public names, and edits that must fail aim at them.)
#![tactic(auto)]

ghost use Rattle.rules.specs.Edition.{edition};
ghost use Rattle.rules.specs.Command.{get, insert, remove};
ghost use Rattle.rules.specs.Reading.{as_set};
ghost use Rattle.rules.specs.Calls.{One, Run};
ghost use Rattle.heads.specs.Worded.{returned};
ghost use Rattle.calls.specs.Told.{told};
ghost use Rattle.members.specs.Asked.{Asks};

use calls::{Command, Reading};
pub use map::{Answer, Code, Key, Refusal, make};
pub use members::{Refused, Was};

// One command on an arena that is checked first. (Its number is a word: `One` speaks of any.)
pub fn one<K: Key>(a: &mut [u32], number: u32, key: K, value: u32) -> Answer<K>
    ensures { One (edition K.WORDS) as_set number (K.number key) value a.old
        (record { answer = told K.number K.WORDS result; arena = a.new }) }
{
    calls::one(a, Reading::AsSet, Command::numbered(number, key, value))
}

// Is the key in the set? The tree is splayed.
pub fn contains<K: Key>(a: &mut [u32], key: K) -> Result<Was, Refused>
    ensures { Asks K.WORDS (get (K.number key)) a.old (record { was = result; arena = a.new }) }
{
    members::contains(a, key)
}

// Puts the key into the set. Where it was absent, it is new.
pub fn insert<K: Key>(a: &mut [u32], key: K) -> Result<Was, Refused>
    ensures { Asks K.WORDS (insert (K.number key) 0) a.old (record { was = result; arena = a.new }) }
{
    members::insert(a, key)
}

// Takes the key out of the set, if it was there.
pub fn remove<K: Key>(a: &mut [u32], key: K) -> Result<Was, Refused>
    ensures { Asks K.WORDS (remove (K.number key)) a.old (record { was = result; arena = a.new }) }
{
    members::remove(a, key)
}

// How many keys there are: COUNT with the number, or the refusal.
pub fn len<K: Key>(a: &mut [u32]) -> Answer<K>
    ensures { One (edition K.WORDS) as_set 12 0 0 a.old
        (record { answer = told K.number K.WORDS result; arena = a.new }) }
{
    calls::one(a, Reading::AsSet, Command::Len)
}

// A run: the arena is checked once, then the commands are done in order.
pub fn run<K: Key>(a: &mut [u32], list: &[u32], answers: &mut [u32]) -> Result<(), Refusal>
    ensures { Run (edition K.WORDS) as_set list.now a.old answers.old
        (record { returned = returned result; arena = a.new; answers = answers.new }) }
{
    calls::run::<K>(a, Reading::AsSet, list, answers)
}
