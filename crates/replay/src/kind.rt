// The four kinds of arena, and the letters that begin them.

// Whose commands an arena takes.
#[derive(Clone, Copy, Debug, PartialEq, Eq)]
pub enum Tree {
    Map,
    Set,
}

// Keys of one word, or of two.
#[derive(Clone, Copy, Debug, PartialEq, Eq)]
pub enum Keys {
    Narrow,
    Wide,
}

#[derive(Clone, Copy, Debug, PartialEq, Eq)]
pub struct Kind {
    pub tree: Tree,
    pub keys: Keys,
}

impl Kind {
    // The kind of arena that a byte begins, if it begins one.
    pub fn begun_by(b: u8) -> Option<Kind> {
        let (tree, keys) = match b {
            b'n' => (Tree::Map, Keys::Narrow),
            b's' => (Tree::Set, Keys::Narrow),
            b'N' => (Tree::Map, Keys::Wide),
            b'S' => (Tree::Set, Keys::Wide),
            _ => return None,
        };
        Some(Kind { tree, keys })
    }
}
