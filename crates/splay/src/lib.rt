// The splay in an arena, and the other ways in which a tree changes shape. Every function here may assume that a tree stands where
// it is told to look. It changes no word outside that tree's slots.
#![tactic(auto)]

ghost use Rattle.std.specs.Prelude.{◌≡◌, ℕ, ◌+◌, ◌*◌, ◌<◌, set};
ghost use Rattle.rules.specs.Order.{by_number, other};
ghost use Rattle.rules.specs.Edition.{edition};
ghost use Rattle.rules.specs.Tree.{Tree};
ghost use Rattle.rules.specs.Splay.{splay};
ghost use Rattle.node.specs.Stands.{off, side_of, Stands, Inside};
ghost use Rattle.splay.specs.Moves.{rotated, Somewhere, Became, end_risen, root_gone};

use node::{Key, Side, key_of, link, put_link};

// The child `up` of x on that side rises over it.
fn rotate<K: Key>(a: &mut [u32], x: u32, up: u32, side: Side)
    requires { Inside K.WORDS a.old x × Inside K.WORDS a.old up }
    ensures { a.new ≡ rotated K.WORDS (off (side_of side)) (off (other (side_of side))) a.old x up }
{
    let mid = link::<K>(a, up, side.other());
    put_link::<K>(a, x, side, mid);
    put_link::<K>(a, up, side.other(), x);
}

// A tree under construction: the link to its top, and to the node at its end, where the next one goes; both 0, as every link that leads to
// nothing, where there is none yet.
#[derive(Clone, Copy, Debug, PartialEq, Eq)]
struct Spine {
    top: u32,
    end: u32,
}

impl Spine {
    // x joins the tree: it becomes the child on that side of the tree's end, or is the tree where there is none. It is the end then.
    fn hang<K: Key>(self, a: &mut [u32], side: Side, x: u32) -> Spine
        requires { 0 < self.end → Inside K.WORDS a.old self.end }
        ensures alone { self.end ≡ 0 → (a.new ≡ a.old) × (result.top ≡ x) }
        ensures joined { 0 < self.end → (a.new ≡ set a.old ((3 + K.WORDS) * self.end + off (side_of side)) x) × (result.top ≡ self.top) }
        ensures last { result.end ≡ x }
    {
        if self.end == 0 {
            return Spine { top: x, end: x };
        }
        put_link::<K>(a, self.end, side, x);
        Spine { end: x, ..self }
    }
}

// The root of the splayed tree, by its link, and the comparisons made.
#[derive(Clone, Copy, Debug, PartialEq, Eq)]
pub struct Splayed {
    pub root: u32,
    pub count: usize,
}

// The tree at `start` splayed with the key, any number: it need be no key of the tree's.
pub fn splay<K: Key>(a: &mut [u32], start: u32, key: u64) -> Splayed
    requires { Somewhere K.WORDS a.old start }
    ensures { (t : Tree ℕ) → Stands (edition K.WORDS) a.old start t →
        Became K.WORDS a.old a.new result.root t (splay by_number key t).tree
        × (result.count ≡ (splay by_number key t).count) }
{
    let mut node = start;
    let mut left = Spine { top: 0, end: 0 };
    let mut right = Spine { top: 0, end: 0 };
    let mut count: usize = 0;
    loop {
        let k = key_of::<K>(a, node).number();
        count += 1;
        if key == k {
            break;
        }
        // The two arms are mirror images. Each is written out, since an edit that must fail aims at one of them
        // (`equal_as_less_at_the_child`, `equal_as_greater_at_the_child`).
        if key < k {
            let child = link::<K>(a, node, Side::Left);
            if child == 0 {
                break;
            }
            let ck = key_of::<K>(a, child).number();
            count += 1;
            if key < ck {
                rotate::<K>(a, node, child, Side::Left);
                node = child;
                if link::<K>(a, node, Side::Left) == 0 {
                    break;
                }
            }
            right = right.hang::<K>(a, Side::Left, node);
            node = link::<K>(a, node, Side::Left);
        } else {
            let child = link::<K>(a, node, Side::Right);
            if child == 0 {
                break;
            }
            let ck = key_of::<K>(a, child).number();
            count += 1;
            if ck < key {
                rotate::<K>(a, node, child, Side::Right);
                node = child;
                if link::<K>(a, node, Side::Right) == 0 {
                    break;
                }
            }
            left = left.hang::<K>(a, Side::Right, node);
            node = link::<K>(a, node, Side::Right);
        }
    }
    let l = link::<K>(a, node, Side::Left);
    let r = link::<K>(a, node, Side::Right);
    left = left.hang::<K>(a, Side::Right, l);
    right = right.hang::<K>(a, Side::Left, r);
    put_link::<K>(a, node, Side::Left, left.top);
    put_link::<K>(a, node, Side::Right, right.top);
    Splayed { root: node, count }
}

// The tree at `root` without its root: the left subtree splayed with the key, and the right one hung on it.
pub fn without_root<K: Key>(a: &mut [u32], root: u32, key: u64) -> Splayed
    requires { Somewhere K.WORDS a.old root }
    ensures { (t : Tree ℕ) → Stands (edition K.WORDS) a.old root t →
        Became K.WORDS a.old a.new result.root t (root_gone by_number key t).tree
        × (result.count ≡ (root_gone by_number key t).count) }
{
    let l = link::<K>(a, root, Side::Left);
    let r = link::<K>(a, root, Side::Right);
    if l == 0 {
        return Splayed { root: r, count: 0 };
    }
    let s = splay::<K>(a, l, key);
    let top = s.root;
    put_link::<K>(a, top, Side::Right, r);
    s
}

// The end of the tree at `start` on that side, rotated up to the root: the first node on the left, the last on the right.
pub fn raise_end<K: Key>(a: &mut [u32], start: u32, side: Side) -> u32
    requires { Somewhere K.WORDS a.old start }
    ensures { (t : Tree ℕ) → Stands (edition K.WORDS) a.old start t →
        Became K.WORDS a.old a.new result t (end_risen (side_of side) t) }
{
    let mut cur = start;
    loop {
        let up = link::<K>(a, cur, side);
        if up == 0 {
            break;
        }
        rotate::<K>(a, cur, up, side);
        cur = up;
    }
    cur
}
