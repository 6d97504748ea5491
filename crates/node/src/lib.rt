// A slot's words, by the link that leads to it. The link x leads to slot x - 1. A key takes one word or two (trait `Key`), and a slot three
// more: the word j of the slot is at (3 + WORDS) * x + j, where 0 is the key's last word, 1 the value, 2 and 3 the left and the right link.
// Only `Key` knows how a key stands in words. These functions may assume that the words they name are there. (No heap: the tree lies in
// words that the caller lends, so a link is a word, and 0 leads to nothing, as `link_to` has it.)
#![tactic(auto)]

mod key;
mod side;
#[cfg(test)]
mod tests;

ghost use Rattle.std.specs.Prelude.{◌≡◌, ℕ, suc, ◌+◌, ◌*◌, ◌<◌, get_or, set};
ghost use Rattle.rules.specs.Edition.{edition};
ghost use Rattle.rules.specs.Arena.{slot_at};
ghost use Rattle.node.specs.Stands.{Inside, Filled, Rekeyed, off, side_of};

pub use key::Key;
pub use side::Side;

// "M is the largest one": the right word of a free slot, which no link can be.
pub const M: u32 = 4294967295;

// The word j of the slot that the link x leads to.
pub fn word<K: Key>(a: &[u32], x: u32, j: usize) -> u32
    requires { Inside K.WORDS a.now x × (j < 4) }
    ensures { result ≡ get_or a.now ((3 + K.WORDS) * x + j) 0 }
{
    let at = (3 + K::WORDS) * (x as usize) + j;
    a[at]
}

// The word j of the slot that the link x leads to becomes v.
pub fn put<K: Key>(a: &mut [u32], x: u32, j: usize, v: u32)
    requires { Inside K.WORDS a.old x × (j < 4) }
    ensures { a.new ≡ set a.old ((3 + K.WORDS) * x + j) v }
{
    let i = (3 + K::WORDS) * (x as usize) + j;
    a[i] = v;
}

// The value of the slot that the link x leads to.
pub fn value<K: Key>(a: &[u32], x: u32) -> u32
    requires { Inside K.WORDS a.now x }
    ensures { result ≡ get_or a.now ((3 + K.WORDS) * x + 1) 0 }
{
    word::<K>(a, x, 1)
}

// The value of the slot that the link x leads to becomes v.
pub fn put_value<K: Key>(a: &mut [u32], x: u32, v: u32)
    requires { Inside K.WORDS a.old x }
    ensures { a.new ≡ set a.old ((3 + K.WORDS) * x + 1) v }
{
    put::<K>(a, x, 1, v);
}

// The link on that side of the slot that the link x leads to.
pub fn link<K: Key>(a: &[u32], x: u32, side: Side) -> u32
    requires { Inside K.WORDS a.now x }
    ensures { result ≡ get_or a.now ((3 + K.WORDS) * x + off (side_of side)) 0 }
{
    word::<K>(a, x, side.word())
}

// The link on that side of the slot that the link x leads to becomes v.
pub fn put_link<K: Key>(a: &mut [u32], x: u32, side: Side, v: u32)
    requires { Inside K.WORDS a.old x }
    ensures { a.new ≡ set a.old ((3 + K.WORDS) * x + off (side_of side)) v }
{
    put::<K>(a, x, side.word(), v);
}

// The key of the slot that the link x leads to.
pub fn key_of<K: Key>(a: &[u32], x: u32) -> K
    requires { Inside K.WORDS a.now x }
    ensures { (s : ℕ) → x ≡ suc s → K.number result ≡ (slot_at (edition K.WORDS) a.now s).key }
{
    let i = (3 + K::WORDS) * (x as usize) + 1 - K::WORDS;
    K::at(a, i)
}

// The slot that the link x leads to holds this key; its value and its links stay.
#[tactic(auto, using(crate::proofs::Words::rekeyed))]
fn put_key<K: Key>(a: &mut [u32], x: u32, key: K)
    requires { Inside K.WORDS a.old x }
    ensures { Rekeyed K.WORDS x (K.number key) a.old a.new }
{
    let i = (3 + K::WORDS) * (x as usize) + 1 - K::WORDS;
    key.put_at(a, i);
}

// The slot that the link x leads to holds this key, this value and these links.
pub fn fill<K: Key>(a: &mut [u32], x: u32, key: K, value: u32, left: u32, right: u32)
    requires { Inside K.WORDS a.old x }
    ensures { Filled K.WORDS x (record { key = K.number key; value = value; left = left; right = right }) a.old a.new }
{
    put_key(a, x, key);
    put_value::<K>(a, x, value);
    put_link::<K>(a, x, Side::Left, left);
    put_link::<K>(a, x, Side::Right, right);
}
