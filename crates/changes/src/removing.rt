// Remove, and taking an end: a node leaves the tree, and its slot becomes the first of the free chain.
ghost use Rattle.std.specs.Prelude.{◌≡◌, ℕ, ◌-◌, ◌<◌};
ghost use Rattle.rules.specs.Edition.{edition};
ghost use Rattle.rules.specs.Command.{remove};
ghost use Rattle.rules.specs.Perform.{State, perform, taken};
ghost use Rattle.rules.specs.Arena.{free_slot};
ghost use Rattle.node.specs.Stands.{side_of, Inside, Filled};
ghost use Rattle.heads.specs.Headed.{Headed, Somehow, Obeyed};

use heads::{Answer, Code, Done, Head};
use lookups::bring;
use node::{Key, M, Side, fill, link};
use splay::{raise_end, without_root};

// The slot of x becomes the first of the free chain.
fn free_slot<K: Key>(a: &mut [u32], head: Head, x: u32) -> Head
    requires inside { Inside K.WORDS a.old x }
    requires size_nonzero { 0 < head.size }
    ensures filled { Filled K.WORDS x (free_slot (edition K.WORDS) head.free) a.old a.new }
    ensures value { result ≡ record { root = head.root; size = head.size - 1; free = x } }
{
    fill(a, x, K::zero(), 0, head.free, M);
    Head {
        size: head.size - 1,
        free: x,
        ..head
    }
}

// 6 remove.
pub fn remove<K: Key>(a: &mut [u32], head: Head, key: K) -> Done<K>
    requires { Somehow K.WORDS a.old head }
    ensures { (st : State ℕ) → Headed K.WORDS a.old head st →
        Obeyed K.number K.WORDS (perform (edition K.WORDS) (remove (K.number key)) st) st a.old a.new result }
{
    let wanted = key.number();
    let m = bring::<K>(a, head.root, wanted);
    if !m.here {
        return Done {
            answer: Answer::bare(Code::Absent, m.count),
            head: head.rooted(m.root),
        };
    }
    let root = m.root;
    let old = Answer::entry(a, root, Code::Removed, m.count);
    let t = without_root::<K>(a, root, wanted);
    let h = free_slot::<K>(a, head.rooted(t.root), root);
    let r = Answer {
        count: m.count + (t.count as u32),
        ..old
    };
    Done { answer: r, head: h }
}

// 9 take first, on the left; 10 take last, on the right.
pub fn take<K: Key>(a: &mut [u32], head: Head, side: Side) -> Done<K>
    requires { Somehow K.WORDS a.old head }
    ensures { (st : State ℕ) → Headed K.WORDS a.old head st →
        Obeyed K.number K.WORDS (taken (edition K.WORDS) (side_of side) st.tree st) st a.old a.new result }
{
    let root = head.root;
    if root == 0 {
        return Done {
            answer: Answer::bare(Code::Absent, 0),
            head,
        };
    }
    let x = raise_end::<K>(a, root, side);
    let far = link::<K>(a, x, side.other());
    let r = Answer::entry(a, x, Code::Removed, 0);
    let h = free_slot::<K>(a, head.rooted(far), x);
    Done { answer: r, head: h }
}
