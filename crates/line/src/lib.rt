// One line, read and written, for any key: a command's words from lower-case hexadecimal digits, eight for each word, and an answer's words
// as digits and a newline. Only `Key` knows a key's width. A line that is read may be anything.
#![tactic(auto)]

mod request;

ghost use Rattle.std.specs.Prelude.{◌≡◌, ◌+◌, ◌*◌, ◌≤◌, length, option_map};
ghost use Rattle.std.proofs.lemmas.List.Edits.{sets};
ghost use Rattle.rules.specs.Edition.{edition};
ghost use Rattle.rules.specs.Lines.{all_spelled};
ghost use Rattle.line.specs.Read.{key_from, Reads};
ghost use Rattle.line.specs.Write.{line_of_words};

use digits::{Bytes, Digits};
use node::Key;
pub use request::Request;

// What ends a line.
pub const NEWLINE: u8 = 10;

// How many bytes the line of a command has, without its newline.
pub fn command_bytes<K: Key>() -> usize
    ensures { result ≡ 8 * (2 + K.WORDS) }
{
    8 * (2 + K::WORDS)
}

// How many bytes the line of an answer has, with its newline.
pub fn answer_bytes<K: Key>() -> usize
    ensures { result ≡ 8 * (3 + K.WORDS) + 1 }
{
    8 * (3 + K::WORDS) + 1
}

// The key in a line that is long enough for a command: the words after the first.
#[tactic(auto, using(crate::proofs::Words::key_reading))]
fn read_key<K: Key>(digits: &Digits, line: &[u8]) -> Option<K>
    requires { 8 * (2 + K.WORDS) ≤ length line.now }
    ensures { option_map K.number result ≡ key_from K.WORDS line.now }
{
    let mut words = [0u32; 2];
    for i in 0..K::WORDS {
        words[i] = digits.read_word(line, 8 + 8 * i)?;
    }
    Some(K::at(&words, 0))
}

// What the line says: the words of exactly so many digits as a command has, and of anything else nothing. The table is lent.
pub fn read_with<K: Key>(digits: &Digits, line: &[u8]) -> Option<Request<K>>
    ensures { Reads K.number K.WORDS line.now result }
{
    if line.len() != command_bytes::<K>() {
        return None;
    }
    let number = digits.read_word(line, 0)?;
    let key = read_key(digits, line)?;
    let value = digits.read_word(line, 8 + 8 * K::WORDS)?;
    Some(Request { number, key, value })
}

// The same of a line alone.
pub fn read<K: Key>(line: &[u8]) -> Option<Request<K>>
    ensures { Reads K.number K.WORDS line.now result }
{
    read_with(&Digits::new(), line)
}

// Writes the digits of a key. Every other byte stays.
#[tactic(auto, using(crate::proofs::Put::key_writing))]
fn spell_key<K: Key>(bytes: &Bytes, out: &mut [u8], at: usize, key: K)
    requires { at + 8 * K.WORDS ≤ length out.old }
    ensures { out.new ≡ sets out.old at (all_spelled ((edition K.WORDS).spell (K.number key))) }
{
    let mut words = [0u32; 2];
    key.put_at(&mut words, 0);
    for i in 0..K::WORDS {
        bytes.spell_word(out, at + 8 * i, words[i]);
    }
}

// Writes the line of an answer. Every other byte stays. (The code is a word: `line_of_words` speaks of any. Code, key, value and count are
// the words of an answer, each with a name in the contract.)
#[tactic(auto, using(crate::proofs::Put::line_put))]
pub fn write_answer<K: Key>(out: &mut [u8], at: usize, code: u32, key: K, value: u32, count: u32)
    requires { at + (8 * (3 + K.WORDS) + 1) ≤ length out.old }
    ensures { out.new ≡ sets out.old at (line_of_words K.WORDS code (K.number key) value count) }
{
    let bytes = Bytes::new();
    bytes.spell_word(out, at, code);
    spell_key(&bytes, out, at + 8, key);
    let after = at + 8 + 8 * K::WORDS;
    bytes.spell_word(out, after, value);
    bytes.spell_word(out, after + 8, count);
    out[after + 16] = NEWLINE;
}
