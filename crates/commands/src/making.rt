// A new arena's words, for making and for clear.
ghost use Rattle.std.specs.Prelude.{◌≡◌, ℕ, ◌+◌, ◌*◌, ◌≤◌, ◌<◌, length};
ghost use Rattle.rules.specs.Edition.{edition, most_slots};
ghost use Rattle.rules.specs.Command.{clear};
ghost use Rattle.rules.specs.Perform.{State, new, perform};
ghost use Rattle.rules.specs.Arena.{WellFormed, over};
ghost use Rattle.heads.specs.Did.{Formed, Did};

use heads::Answer;
use node::{Key, M, fill};

// The words of a new arena of n slots; later words stay.
pub fn fresh<K: Key>(a: &mut [u32], n: u32)
    requires { (1 ≤ n) × (n ≤ most_slots) × (4 + (3 + K.WORDS) * n ≤ length a.old) }
    ensures { (a.new ≡ over (edition K.WORDS) (new n) a.old) × WellFormed (edition K.WORDS) a.new (new n) }
{
    a[0] = n;
    a[1] = 0;
    a[2] = 0;
    a[3] = 1;
    for x in 1..n {
        fill(a, x, K::zero(), 0, x + 1, M);
    }
    fill(a, n, K::zero(), 0, 0, M);
}

// 11 clear.
#[tactic(auto, unfolding(rules::specs::Perform::perform))]
pub fn clear<K: Key>(a: &mut [u32]) -> Answer<K>
    requires { Formed K.WORDS a.old }
    ensures { (st : State ℕ) → WellFormed (edition K.WORDS) a.old st →
        Did K.number K.WORDS (perform (edition K.WORDS) (clear) st) a.old a.new result }
{
    let size = a[2];
    let n = a[0];
    fresh::<K>(a, n);
    Answer::counted(size)
}
