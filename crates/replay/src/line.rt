// The line that is being read. Its words are eight hexadecimal digits each, the high one first.
ghost use Rattle.std.specs.Prelude.{◌+◌, ◌<◌, ◌≤◌};

use crate::kind::Kind;
use node::Key;

// The bytes of the line, of which so many have come. (An array with its length beside it: short lines read the bytes of the lines before.)
#[derive(Drop)]
pub struct Line {
    bytes: [u8; 32],
    len: usize,
}

// The value of a digit; 0 for any other byte, which the list does not hold where a digit is read.
fn digit(b: u8) -> u32
    ensures { result < 16 }
{
    match b {
        b'0'..=b'9' => u32::from(b - b'0'),
        b'a'..=b'f' => u32::from(b - b'a') + 10,
        _ => 0,
    }
}

impl Line {
    pub fn new() -> Line {
        Line {
            bytes: [0; 32],
            len: 0,
        }
    }

    // Takes one byte of input, and says whether it ended the line. No line of the list is longer than 32 bytes.
    pub fn take(&mut self, b: u8) -> bool {
        if b == b'\n' {
            self.len = 0;
            return true;
        }
        if self.len < 32 {
            self.bytes[self.len] = b;
            self.len += 1;
        }
        false
    }

    // The word in the eight digits from `at` on.
    fn word(&self, at: usize) -> u32
        requires { at + 8 ≤ 32 }
    {
        self.bytes[at..at + 8]
            .iter()
            .fold(0, |word, &b| word << 4 | digit(b))
    }

    // The arena that the line begins, and its number of slots; None where the line is a command.
    pub fn making(&self) -> Option<(Kind, u32)> {
        let kind = Kind::begun_by(self.bytes[0])?;
        Some((kind, self.word(1)))
    }

    // The number of the command.
    pub fn number(&self) -> u32 {
        self.word(0)
    }

    // Its key.
    pub fn key<K: Key>(&self) -> K {
        let mut words = [0; 2];
        for i in 0..K::WORDS {
            words[i] = self.word(8 + 8 * i);
        }
        K::at(&words, 0)
    }

    // Its value, which stands behind the key.
    pub fn value<K: Key>(&self) -> u32 {
        self.word(8 + 8 * K::WORDS)
    }
}
