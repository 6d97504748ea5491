// The check of an arena: is it well formed? Nothing is assumed of its words, and none is changed.
// It goes once over the tree and once over the free chain, in time linear in N, and no call's depth grows: the walk over the tree keeps its
// way back in scratch words that are lent to it.
#![tactic(auto)]

ghost use Rattle.std.specs.Prelude.{◌≤◌, length};
ghost use Rattle.rules.specs.Edition.{edition};
ghost use Rattle.node.specs.Stands.{Inside};
ghost use Rattle.formed.specs.Verdict.{Tells, TreeStands, ChainStands, Verdict};

use node::{Key, M, Side, key_of, link, value};

// Does an ordered tree of `size` nodes stand at the root link, with links up to n? It is walked from left to right. The scratch words
// hold the links whose nodes come after the present subtree, the next of them last; `size` words are enough, since each of those nodes
// is yet to be counted. Keys that ascend show that no slot is met twice, so nothing is marked.
// (No heap: the stack is a lent slice, with its height beside it.)
#[tactic(auto, using(crate::proofs::Along::steps))]
fn tree_stands<K: Key>(a: &[u32], n: u32, root: u32, size: usize, work: &mut [u32]) -> bool
    requires { Inside K.WORDS a.now n × (size ≤ length work.old) }
    ensures { Tells (TreeStands (edition K.WORDS) a.now n root size) result }
{
    let mut x = root;
    let mut waiting: usize = 0;
    let mut count: usize = 0;
    let mut last: u64 = 0;
    loop {
        if x != 0 {
            if n < x {
                return false;
            }
            if size <= count + waiting {
                return false;
            }
            work[waiting] = x;
            waiting += 1;
            x = link::<K>(a, x, Side::Left);
        } else {
            if waiting == 0 {
                return count == size;
            }
            waiting -= 1;
            let next = work[waiting];
            let k = key_of::<K>(a, next).number();
            if 0 < count && k <= last {
                return false;
            }
            last = k;
            count += 1;
            x = link::<K>(a, next, Side::Right);
        }
    }
}

// Does a chain of so many free slots start at the first free link, with links up to n?
#[tactic(auto, using(crate::proofs::Chain::steps))]
fn chain_stands<K: Key>(a: &[u32], n: u32, first: u32, free: usize) -> bool
    requires { Inside K.WORDS a.now n }
    ensures { Tells (ChainStands (edition K.WORDS) a.now n first free) result }
{
    let mut y = first;
    let mut left = free;
    while y != 0 {
        if n < y {
            return false;
        }
        if left == 0 {
            return false;
        }
        if key_of::<K>(a, y).number() != 0 {
            return false;
        }
        if value::<K>(a, y) != 0 {
            return false;
        }
        if link::<K>(a, y, Side::Right) != M {
            return false;
        }
        y = link::<K>(a, y, Side::Left);
        left -= 1;
    }
    left == 0
}

// Is the arena well formed? True, and there is a state that it holds; or false, and it holds none. The scratch words are its own, enough
// for the largest N.
#[tactic(auto, using(crate::proofs::Formed::answers))]
pub fn check<K: Key>(a: &[u32]) -> bool
    ensures { Verdict K.WORDS a.now result }
{
    if a.len() < 4 {
        return false;
    }
    let n = a[0];
    if !(1..=4095).contains(&n) {
        return false;
    }
    if a.len() < 4 + (3 + K::WORDS) * (n as usize) {
        return false;
    }
    let size = a[2];
    if n < size {
        return false;
    }
    let mut work = [0u32; 4096];
    if !tree_stands::<K>(a, n, a[1], size as usize, &mut work) {
        return false;
    }
    chain_stands::<K>(a, n, a[3], (n - size) as usize)
}
