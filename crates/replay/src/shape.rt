// The sum of a tree's shape, as oracle/README.md defines it: it tells trees apart by keys, values and children, whatever slots they lie in.
ghost use Rattle.std.specs.Prelude.{◌≡◌, ◌+◌, ◌*◌, ◌%◌, ◌<◌, ◌≤◌};

use node::Key;

// The prime that all sums and products are taken modulo.
const P: u64 = 2147483647;

// The right word of a free slot.
const M: u32 = 4294967295;

// A number modulo P.
#[derive(Clone, Copy)]
struct Residue {
    n: u64,
    ghost below: { n < 2147483647 },
}

impl Residue {
    fn of(n: u64) -> Residue
        ensures { result.n ≡ n % 2147483647 }
    {
        Residue { n: n % P }
    }

    fn plus(self, other: Residue) -> Residue
        ensures { result.n ≡ (self.n + other.n) % 2147483647 }
    {
        Residue::of(self.n + other.n)
    }

    fn times(self, other: Residue) -> Residue
        ensures { result.n ≡ self.n * other.n % 2147483647 }
    {
        Residue::of(self.n * other.n)
    }

    // Squared four times, then times the number itself.
    fn power17(self) -> Residue {
        let two = self.times(self);
        let four = two.times(two);
        let eight = four.times(four);
        eight.times(eight).times(self)
    }
}

// The word j of the slot that the link x leads to, where docs/RULES.md has it: the key's words come first, then the value, the left link and
// the right one. (Not by `node`: that its words stand where they should is to show here.)
fn word<K: Key>(a: &[u32; 20480], x: u32, j: usize) -> u32
    requires { (1 ≤ x) × (x ≤ 4095) × (j < 3 + K.WORDS) }
{
    let slot = x as usize - 1;
    a[4 + (3 + K::WORDS) * slot + j]
}

// What the halves of a word are multiplied by.
#[derive(Clone, Copy)]
struct Factors {
    high: u32,
    low: u32,
}

impl Factors {
    // What a word adds to a node's share.
    fn weigh(self, word: u32) -> Residue {
        let high = u64::from(word / 65536) * u64::from(self.high);
        let low = u64::from(word % 65536) * u64::from(self.low);
        Residue::of(high + low)
    }
}

// The factors of a key's high word and of its low word.
#[derive(Clone, Copy)]
struct KeyFactors {
    high: Factors,
    low: Factors,
}

impl KeyFactors {
    // What a slot's key adds to a node's share. A key of one word is that of two whose high word is 0.
    fn weigh<K: Key>(self, a: &[u32; 20480], x: u32) -> Residue
        requires { (1 ≤ x) × (x ≤ 4095) }
    {
        let low = self.low.weigh(word::<K>(a, x, K::WORDS - 1));
        if K::WORDS == 1 {
            return low;
        }
        self.high.weigh(word::<K>(a, x, 0)).plus(low)
    }
}

// A node's own key.
const KEY: KeyFactors = KeyFactors {
    high: Factors {
        high: 1220703125,
        low: 1977326743,
    },
    low: Factors {
        high: 1664525013,
        low: 1103515245,
    },
};

// The key of its left child.
const LEFT: KeyFactors = KeyFactors {
    high: Factors {
        high: 1162261467,
        low: 1801088541,
    },
    low: Factors {
        high: 1181783497,
        low: 1640531527,
    },
};

// The key of its right child.
const RIGHT: KeyFactors = KeyFactors {
    high: Factors {
        high: 1406563717,
        low: 1742810335,
    },
    low: Factors {
        high: 1812433253,
        low: 907633385,
    },
};

// Its value.
const VALUE: Factors = Factors {
    high: 1597334677,
    low: 747796405,
};

// What the child at a link adds to its parent's share: its key, with 1 added to the low word's high half, or nothing where there is none. No
// link of a well-formed arena is above 4095.
fn child<K: Key>(a: &[u32; 20480], x: u32, by: KeyFactors) -> Residue {
    if x == 0 || 4095 < x {
        return Residue::of(0);
    }
    by.weigh::<K>(a, x)
        .plus(Residue::of(u64::from(by.low.high)))
}

// The share of the node that the link leads to; a free slot has none.
fn share<K: Key>(a: &[u32; 20480], x: u32) -> Residue
    requires { (1 ≤ x) × (x ≤ 4095) }
{
    let right = word::<K>(a, x, K::WORDS + 2);
    if right == M {
        return Residue::of(0);
    }
    let left = word::<K>(a, x, K::WORDS + 1);
    Residue::of(1013904223)
        .plus(KEY.weigh::<K>(a, x))
        .plus(VALUE.weigh(word::<K>(a, x, K::WORDS)))
        .plus(child::<K>(a, left, LEFT))
        .plus(child::<K>(a, right, RIGHT))
        .power17()
}

// The sum of the shares of all slots, which for a well-formed arena is that of its tree's nodes.
pub fn shape_sum<K: Key>(a: &[u32; 20480]) -> u32
    ensures { result < 2147483647 }
{
    let slots = a[0];
    if 4095 < slots {
        return 0;
    }
    let mut sum = Residue::of(0);
    for x in 1..=slots {
        sum = sum.plus(share::<K>(a, x));
    }
    sum.n as u32
}
