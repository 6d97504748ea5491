// The twelve commands, and everything that is none.
ghost use Rattle.std.specs.Prelude.{◌≡◌};
ghost use Rattle.rules.specs.Command.{command};
ghost use Rattle.heads.specs.Worded.{meant};

use node::Key;

// A command, with the words that it has a use for.
#[derive(Clone, Copy, Debug, PartialEq, Eq)]
pub enum Command<K> {
    Get(K),
    Write(K, u32),
    Next(K),
    Prev(K),
    Insert(K, u32),
    Remove(K),
    Min,
    Max,
    TakeFirst,
    TakeLast,
    Clear,
    Len,
    Unknown,
}

impl<K: Key> Command<K> {
    // The command of that number; "a word that it has no use for is ignored". (The one switch over a number: it makes the type. Number,
    // key and value are the words of a command, each with a name in the contract.)
    pub fn numbered(number: u32, key: K, value: u32) -> Command<K>
        ensures { meant K.number result ≡ command number (K.number key) value }
    {
        match number {
            1 => Command::Get(key),
            2 => Command::Write(key, value),
            3 => Command::Next(key),
            4 => Command::Prev(key),
            5 => Command::Insert(key, value),
            6 => Command::Remove(key),
            7 => Command::Min,
            8 => Command::Max,
            9 => Command::TakeFirst,
            10 => Command::TakeLast,
            11 => Command::Clear,
            12 => Command::Len,
            0 | 13..=4294967295 => Command::Unknown,
        }
    }
}
