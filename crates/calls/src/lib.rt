// The calls over an arena: making, one command, a run; for the map or for the set, as the reading says. They assume nothing of any word
// that they are lent: what they cannot use they refuse, and then no word has changed.
#![tactic(auto)]

mod making;
mod steps;

ghost use Rattle.rules.specs.Edition.{edition, Spells};
ghost use Rattle.rules.specs.Calls.{Does, Run};
ghost use Rattle.heads.specs.Worded.{meant, returned};
ghost use Rattle.keys.specs.Told.{reading};
ghost use Rattle.calls.specs.Told.{told};

pub use commands::{Answer, Code, Command, Refusal, returned};
use formed::check;
pub use keys::Reading;
pub use making::make;
pub use node::Key;

// One command on an arena that is checked first.
pub fn one<K: Key>(a: &mut [u32], by: Reading, command: Command<K>) -> Answer<K>
    ensures fits { Spells K.WORDS (K.number result.key) }
    ensures one { Does (edition K.WORDS) (reading by) (meant K.number command) a.old
        (record { answer = told K.number K.WORDS result; arena = a.new }) }
{
    if !check::<K>(a) {
        return Answer::bare(Code::Damaged, 0);
    }
    let r: Answer<K> = steps::command_as(a, by, command);
    // Of any key, this says that its words can spell it.
    let _ = r.key.spelled_number();
    r
}

// A run: the arena is checked once, then the commands are done in order.
pub fn run<K: Key>(
    a: &mut [u32],
    by: Reading,
    list: &[u32],
    answers: &mut [u32],
) -> Result<(), Refusal>
    ensures { Run (edition K.WORDS) (reading by) list.now a.old answers.old
        (record { returned = returned result; arena = a.new; answers = answers.new }) }
{
    if !check::<K>(a) {
        return Err(Refusal::Damaged);
    }
    if list.len() % (2 + K::WORDS) != 0 {
        return Err(Refusal::Ragged);
    }
    if answers.len() < (3 + K::WORDS) * (list.len() / (2 + K::WORDS)) {
        return Err(Refusal::NoRoom);
    }
    steps::run_all::<K>(a, by, list, answers);
    Ok(())
}
