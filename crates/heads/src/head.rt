// A tree's head: what leads to it and to the free chain, wherever its words are kept. And what a command gives back.
ghost use Rattle.std.specs.Prelude.{◌≡◌};

use crate::answer::Answer;

// The link to the root, the number of entries, and the link to the first free slot. (Links are words of the arena: 0 leads to nothing.)
#[derive(Clone, Copy, Debug, PartialEq, Eq)]
pub struct Head {
    pub root: u32,
    pub size: u32,
    pub free: u32,
}

impl Head {
    // The head with another root.
    pub fn rooted(self, root: u32) -> Head
        ensures { result ≡ record { root = root; size = self.size; free = self.free } }
    {
        Head { root, ..self }
    }
}

#[derive(Clone, Copy, Debug, PartialEq, Eq)]
pub struct Done<K> {
    pub answer: Answer<K>,
    pub head: Head,
}
