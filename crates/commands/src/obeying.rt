// The commands on one tree, wherever its head is kept: all but clear, which makes an arena's slots anew.
ghost use Rattle.std.specs.Prelude.{◌≡◌, ℕ};
ghost use Rattle.rules.specs.Command.{clear};
ghost use Rattle.rules.specs.Edition.{edition};
ghost use Rattle.rules.specs.Perform.{State, perform};
ghost use Rattle.heads.specs.Worded.{meant};
ghost use Rattle.heads.specs.Headed.{Headed, SomehowWith, Obeyed};

use changes::{insert, remove, take};
use heads::{Answer, Code, Command, Done, Head};
use lookups::{get, neighbour, outer, write};
use node::{Key, Side};

// Does the command, where there is room for `most` entries.
#[tactic(auto, unfolding(rules::specs::Perform::perform))]
pub fn obey<K: Key>(a: &mut [u32], head: Head, most: u32, command: Command<K>) -> Done<K>
    requires somehow_with { SomehowWith K.WORDS a.old head most }
    requires not_clear { meant K.number command ≡ clear → ⊥ }
    ensures { (st : State ℕ) → Headed K.WORDS a.old head st → st.slots ≡ most →
        Obeyed K.number K.WORDS (perform (edition K.WORDS) (meant K.number command) st) st a.old a.new result }
{
    match command {
        Command::Get(key) => get(a, head, key),
        Command::Write(key, value) => write(a, head, key, value),
        Command::Next(key) => neighbour(a, head, key, Side::Left),
        Command::Prev(key) => neighbour(a, head, key, Side::Right),
        Command::Insert(key, value) => insert(a, head, most, key, value),
        Command::Remove(key) => remove(a, head, key),
        Command::Min => Done {
            answer: outer(a, head.root, Side::Left),
            head,
        },
        Command::Max => Done {
            answer: outer(a, head.root, Side::Right),
            head,
        },
        Command::TakeFirst => take(a, head, Side::Left),
        Command::TakeLast => take(a, head, Side::Right),
        Command::Len => Done {
            answer: Answer::counted(head.size),
            head,
        },
        // Clear is never asked for here.
        Command::Clear | Command::Unknown => Done {
            answer: Answer::bare(Code::Unknown, 0),
            head,
        },
    }
}
