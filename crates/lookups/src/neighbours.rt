// Neighbours of a key, and the two ends of the order.
ghost use Rattle.std.specs.Prelude.{◌≡◌, ℕ, ◌+◌, ◌<◌};
ghost use Rattle.rules.specs.Order.{is_toward, by_number};
ghost use Rattle.rules.specs.Edition.{edition};
ghost use Rattle.rules.specs.Tree.{Tree};
ghost use Rattle.std.proofs.Math.Option.{none as nil};
ghost use Rattle.rules.specs.Perform.{State, neighbour, outermost, entry_or};
ghost use Rattle.node.specs.Stands.{side_of, Stands};
ghost use Rattle.heads.specs.Worded.{Says};
ghost use Rattle.heads.specs.Headed.{Headed, Somehow, Obeyed};
ghost use Rattle.lookups.specs.Sought.{LeadsOr, SoughtIn};

use heads::{Answer, Code, Done, Head};
use node::{Key, Side, key_of, link};
use splay::splay;

// The entry that a walk ended with, by its link, and the nodes that it met.
#[derive(Clone, Copy, Debug, PartialEq, Eq)]
pub struct Sought {
    pub best: Option<u32>,
    pub count: usize,
}

// Does the key lie on that side of k?
fn beyond(side: Side, key: u64, k: u64) -> bool
    ensures { result ≡ is_toward (side_of side) (by_number key k) }
{
    match side {
        Side::Left => key < k,
        Side::Right => k < key,
    }
}

// The nearest entry of which the key lies on that side.
fn seek<K: Key>(a: &[u32], root: u32, key: K, side: Side) -> Sought
    requires { (t : Tree ℕ) × Stands (edition K.WORDS) a.now root t }
    ensures { (t : Tree ℕ) → Stands (edition K.WORDS) a.now root t →
        SoughtIn K.WORDS (side_of side) (K.number key) a.now t result.best result.count }
{
    let mut x = root;
    let mut best = None;
    let mut count: usize = 0;
    while x != 0 {
        count += 1;
        if beyond(side, key.number(), key_of::<K>(a, x).number()) {
            best = Some(x);
            x = link::<K>(a, x, side);
        } else {
            x = link::<K>(a, x, side.other());
        }
    }
    Sought { best, count }
}

// 3 next, where the key lies on the left of what is sought; 4 prev, where it lies on the right.
pub fn neighbour<K: Key>(a: &mut [u32], head: Head, key: K, side: Side) -> Done<K>
    requires { Somehow K.WORDS a.old head }
    ensures { (st : State ℕ) → Headed K.WORDS a.old head st →
        Obeyed K.number K.WORDS (neighbour (edition K.WORDS) (side_of side) (K.number key) st) st a.old a.new result }
{
    let root = head.root;
    if root == 0 {
        return Done {
            answer: Answer::bare(Code::Absent, 0),
            head,
        };
    }
    let s = splay::<K>(a, root, key.number());
    let f = seek(a, s.root, key, side);
    let n = (s.count + f.count) as u32;
    let h = head.rooted(s.root);
    match f.best {
        None => Done {
            answer: Answer::bare(Code::Absent, n),
            head: h,
        },
        Some(x) => Done {
            answer: Answer::entry(a, x, Code::Found, n),
            head: h,
        },
    }
}

// The link to the first node in order on the left, to the last on the right; None where there is no node.
fn outermost<K: Key>(a: &[u32], root: u32, side: Side) -> Option<u32>
    requires { (t : Tree ℕ) × Stands (edition K.WORDS) a.now root t }
    ensures { (t : Tree ℕ) → Stands (edition K.WORDS) a.now root t →
        LeadsOr K.WORDS a.now result (outermost (side_of side) t nil) }
{
    let mut x = root;
    let mut best = None;
    while x != 0 {
        best = Some(x);
        x = link::<K>(a, x, side);
    }
    best
}

// 7 min on the left; 8 max on the right.
pub fn outer<K: Key>(a: &[u32], root: u32, side: Side) -> Answer<K>
    requires { (t : Tree ℕ) × Stands (edition K.WORDS) a.now root t }
    ensures { (t : Tree ℕ) → Stands (edition K.WORDS) a.now root t →
        Says K.number result (entry_or (edition K.WORDS) (outermost (side_of side) t nil) 0) }
{
    match outermost::<K>(a, root, side) {
        None => Answer::bare(Code::Absent, 0),
        Some(x) => Answer::entry(a, x, Code::Found, 0),
    }
}
