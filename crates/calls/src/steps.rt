// A run, command by command, as the reading has it.
ghost use Rattle.std.specs.Prelude.{◌++◌, ◌≡◌, ℕ, ◌+◌, ◌*◌, ◌/◌, ◌%◌, ◌≤◌, length, drop};
ghost use Rattle.rules.specs.Edition.{edition};
ghost use Rattle.rules.specs.Command.{command_at};
ghost use Rattle.rules.specs.Perform.{State};
ghost use Rattle.rules.specs.Arena.{WellFormed};
ghost use Rattle.rules.specs.Calls.{perform_as};
ghost use Rattle.heads.specs.Did.{Formed, Did};
ghost use Rattle.heads.specs.Worded.{meant};
ghost use Rattle.keys.specs.Told.{reading};
ghost use Rattle.calls.specs.Told.{told, Stepped, RanAll};

use commands::{Answer, Command, command};
use keys::Reading;
use node::Key;

// One command, read in that way.
pub fn command_as<K: Key>(a: &mut [u32], by: Reading, asked: Command<K>) -> Answer<K>
    requires { Formed K.WORDS a.old }
    ensures { (st : State ℕ) → WellFormed (edition K.WORDS) a.old st →
        Did K.number K.WORDS (perform_as (edition K.WORDS) (reading by) (meant K.number asked) st) a.old a.new result }
{
    by.answer(command(a, by.command(asked)))
}

// The command that a list of words begins with.
fn first_of<K: Key>(list: &[u32]) -> Command<K>
    requires { 2 + K.WORDS ≤ length list.now }
    ensures { meant K.number result ≡ command_at (edition K.WORDS) list.now }
{
    Command::numbered(list[0], K::at(list, 1), list[1 + K::WORDS])
}

// The answer's words at the front of the lent words; those behind it stay.
fn put_answer<K: Key>(out: &mut [u32], r: Answer<K>)
    requires { 3 + K.WORDS ≤ length out.old }
    ensures { out.new ≡ told K.number K.WORDS r ++ drop (3 + K.WORDS) out.old }
{
    out[0] = u32::from(r.code);
    r.key.put_at(out, 1);
    out[1 + K::WORDS] = r.value;
    out[2 + K::WORDS] = r.count;
}

// The first command of the list, its answer at the front of the lent words.
#[tactic(auto, using(crate::proofs::Called::stepped))]
fn step<K: Key>(a: &mut [u32], by: Reading, list: &[u32], out: &mut [u32])
    requires formed { Formed K.WORDS a.old }
    requires room { (2 + K.WORDS ≤ length list.now) × (3 + K.WORDS ≤ length out.old) }
    ensures { (st : State ℕ) → WellFormed (edition K.WORDS) a.old st →
        Stepped K.WORDS (reading by) (command_at (edition K.WORDS) list.now) st
        a.old a.new out.old out.new }
{
    let r = command_as(a, by, first_of::<K>(list));
    put_answer(out, r);
}

// The commands of the list in order. Each turn takes the first command and passes on the rest of the list, and lends on the answer words
// from the next answer's place, so that no turn can reach an answer that was given before. (This form was asked for: docs/DECISIONS.md
// says so under Language forms.)
pub fn run_all<K: Key>(a: &mut [u32], by: Reading, list: &[u32], answers: &mut [u32])
    requires formed { Formed K.WORDS a.old }
    requires room { (length list.now % (2 + K.WORDS) ≡ 0) × ((3 + K.WORDS) * (length list.now / (2 + K.WORDS)) ≤ length answers.old) }
    ensures { (st : State ℕ) → WellFormed (edition K.WORDS) a.old st →
        RanAll K.WORDS (reading by) list.now st a.old a.new answers.old answers.new }
{
    let mut rest = list;
    let mut at = 0;
    'rest: while 0 < rest.len() {
        step::<K>(a, by, rest, &mut answers[at..]);
        rest = &rest[2 + K::WORDS..];
        at += 3 + K::WORDS;
    }
}
