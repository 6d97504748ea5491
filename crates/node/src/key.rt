// The keys of the two editions, u32 and u64, and how they stand in words: "a key is one word", or "two words, the high one first". All
// code above is written once, for any key.
ghost use Rattle.std.specs.Prelude.{◌≡◌, ℕ, ◌+◌, ◌≤◌, length};
ghost use Rattle.std.proofs.Common.{rules};
ghost use Rattle.std.proofs.lemmas.List.Edits.{sets};
ghost use Rattle.rules.specs.Edition.{spelled, key_in, Width, Spells};

pub trait Key: Copy {
    ghost WORDS: { ℕ };

    // How many words a key takes.
    const WORDS: usize;

    ghost number: { Self → ℕ };

    // "Keys are compared as numbers": the number that this key is.
    fn number(self) -> u64
        ensures { result ≡ number self };

    // The key 0, of a free slot and of an answer without an entry.
    fn zero() -> Self
        ensures { number result ≡ 0 };

    // The key that begins at the word i.
    fn at(a: &[u32], i: usize) -> Self
        requires { i + WORDS ≤ length a.now }
        ensures { number result ≡ key_in WORDS a.now i };

    // The key's words are stored from the word i on.
    fn put_at(self, a: &mut [u32], i: usize)
        requires { i + WORDS ≤ length a.old }
        ensures { a.new ≡ sets a.old i (spelled WORDS (number self)) };

    ghost width: { Width WORDS };

    // The number again, and that the key's words can spell it: `put_at` stores them.
    final fn spelled_number(self) -> u64
        ensures same { result ≡ number self }
        ensures fits { Spells WORDS result }
    {
        let mut words = [0; 2];
        self.put_at(&mut words, 0);
        if Self::WORDS == 1 {
            return u64::from(words[0]);
        }
        self.number()
    }
}

impl Key for u32 {
    ghost WORDS = { 1 };

    const WORDS: usize = 1;

    ghost number = { λ k. k };

    ghost width = { Prim.search rules };

    fn number(self) -> u64 {
        u64::from(self)
    }

    fn zero() -> u32 {
        0
    }

    fn at(a: &[u32], i: usize) -> u32 {
        a[i]
    }

    fn put_at(self, a: &mut [u32], i: usize) {
        a[i] = self;
    }
}

impl Key for u64 {
    ghost WORDS = { 2 };

    const WORDS: usize = 2;

    ghost number = { λ k. k };

    ghost width = { Prim.search rules };

    fn number(self) -> u64 {
        self
    }

    fn zero() -> u64 {
        0
    }

    fn at(a: &[u32], i: usize) -> u64 {
        4294967296 * u64::from(a[i]) + u64::from(a[i + 1])
    }

    fn put_at(self, a: &mut [u32], i: usize) {
        a[i] = (self / 4294967296) as u32;
        a[i + 1] = (self % 4294967296) as u32;
    }
}
