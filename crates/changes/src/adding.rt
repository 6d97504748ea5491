// Insert: a slot leaves the free chain, and its node becomes the root.
ghost use Rattle.std.specs.Prelude.{◌≡◌, ℕ, ◌<◌};
ghost use Rattle.rules.specs.Order.{other};
ghost use Rattle.rules.specs.Edition.{edition};
ghost use Rattle.rules.specs.Command.{insert};
ghost use Rattle.rules.specs.Perform.{State, perform};
ghost use Rattle.node.specs.Stands.{off, side_of, Inside};
ghost use Rattle.heads.specs.Headed.{Headed, Somehow, SomehowWith, Obeyed};
ghost use Rattle.changes.specs.Grown.{Rootless, Grew, crowned};

use heads::{Answer, Code, Done, Head};
use lookups::bring;
use node::{Key, Side, fill, key_of, link, put_link, put_value};

// x, a node without children, becomes the root: it takes the old root's child on that side, and the old root on the other.
fn new_root<K: Key>(a: &mut [u32], root: u32, x: u32, side: Side)
    requires { Inside K.WORDS a.old root × Inside K.WORDS a.old x }
    ensures { a.new ≡ crowned K.WORDS (off (side_of side)) (off (other (side_of side))) a.old root x }
{
    let near = link::<K>(a, root, side);
    put_link::<K>(a, x, side, near);
    put_link::<K>(a, x, side.other(), root);
    put_link::<K>(a, root, side, 0);
}

// A node for a key that is not there, in the first free slot, becomes the root, beside the old one.
fn grow<K: Key>(a: &mut [u32], head: Head, key: K, value: u32) -> Head
    requires somehow { Somehow K.WORDS a.old head }
    requires free_nonzero { 0 < head.free }
    ensures { (st : State ℕ) → Headed K.WORDS a.old head st → Rootless K.WORDS (K.number key) a.old head →
        Grew K.WORDS (K.number key) value st head a.old a.new result }
{
    let root = head.root;
    let x = head.free;
    let next = link::<K>(a, x, Side::Left);
    let h = Head {
        root: x,
        size: head.size + 1,
        free: next,
    };
    fill(a, x, key, value, 0, 0);
    if root == 0 {
        return h;
    }
    if key.number() < key_of::<K>(a, root).number() {
        new_root::<K>(a, root, x, Side::Left);
        return h;
    }
    new_root::<K>(a, root, x, Side::Right);
    h
}

// 5 insert. There is room for `most` entries.
pub fn insert<K: Key>(a: &mut [u32], head: Head, most: u32, key: K, value: u32) -> Done<K>
    requires { SomehowWith K.WORDS a.old head most }
    ensures { (st : State ℕ) → Headed K.WORDS a.old head st → st.slots ≡ most →
        Obeyed K.number K.WORDS (perform (edition K.WORDS) (insert (K.number key) value) st) st a.old a.new result }
{
    let m = bring::<K>(a, head.root, key.number());
    let h = head.rooted(m.root);
    if m.here {
        let r = Answer::entry(a, m.root, Code::Replaced, m.count);
        put_value::<K>(a, m.root, value);
        return Done { answer: r, head: h };
    }
    if h.size == most {
        return Done {
            answer: Answer::bare(Code::Full, m.count),
            head: h,
        };
    }
    let g = grow(a, h, key, value);
    let r = Answer {
        code: Code::New,
        key,
        value: 0,
        count: m.count,
    };
    Done { answer: r, head: g }
}
