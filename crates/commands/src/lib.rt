// The twelve commands: on one tree with a head of its own (`obey`), and on an arena, whose head is its words 1 to 3 (`command`); and the
// words of a new arena (`fresh`). `obey` may assume that a tree and its free chain stand under their head, in slots within the words,
// `command` that the arena is well formed, `fresh` that the words are there.
#![tactic(auto)]

mod making;
mod obeying;

ghost use Rattle.std.specs.Prelude.{ℕ};
ghost use Rattle.rules.specs.Edition.{edition};
ghost use Rattle.rules.specs.Perform.{State, perform};
ghost use Rattle.rules.specs.Arena.{WellFormed};
ghost use Rattle.heads.specs.Worded.{meant};
ghost use Rattle.heads.specs.Did.{Formed, Did};

pub use heads::{Answer, Code, Command, Done, Head, Refusal, returned};
use making::clear;
pub use making::fresh;
use node::Key;
pub use obeying::obey;

// Does the command.
pub fn command<K: Key>(a: &mut [u32], command: Command<K>) -> Answer<K>
    requires { Formed K.WORDS a.old }
    ensures { (st : State ℕ) → WellFormed (edition K.WORDS) a.old st →
        Did K.number K.WORDS (perform (edition K.WORDS) (meant K.number command) st) a.old a.new result }
{
    if let Command::Clear = command {
        return clear::<K>(a);
    }
    let n = a[0];
    let h = Head {
        root: a[1],
        size: a[2],
        free: a[3],
    };
    let d = obey(a, h, n, command);
    let to = d.head;
    a[1] = to.root;
    a[2] = to.size;
    a[3] = to.free;
    d.answer
}
