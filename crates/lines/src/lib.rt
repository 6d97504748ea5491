// Lines of either edition, by the type of its keys: a command from exactly 24 digits (u32) or 32 (u64), an answer as 32 or 40 digits and a
// newline, and a stream of such lines. What is public here takes anything. The work is done by `line` and `flow`.
// (Calls of one line each: they are the public names, and edits that must fail aim at them.)
#![tactic(auto)]

ghost use Rattle.std.specs.Prelude.{◌≡◌, [], ◌∷◌, ◌++◌, ◌/◌, ◌%◌};
ghost use Rattle.rules.specs.Edition.{word_values};
ghost use Rattle.rules.specs.Lines.{all_spelled, newline};
ghost use Rattle.line.specs.Read.{Reads};

pub mod stream;

pub use digits::digit;
pub use heads::Refusal;
pub use line::Request;
use line::{read, write_answer};
pub use node::Key;

// What the line says: the words of exactly so many digits as a command has, and of anything else nothing.
pub fn read_line<K: Key>(bytes: &[u8]) -> Option<Request<K>>
    ensures { Reads K.number K.WORDS bytes.now result }
{
    read::<K>(bytes)
}

// The line of an answer whose key is one word; the code may be any word. It and the next are two functions, because Rattle has no array
// whose length is computed from a type's constant.
#[tactic(auto, using(line::proofs::Put::nothing_else))]
pub fn answer_line(code: u32, key: u32, value: u32, count: u32) -> [u8; 33]
    ensures { result ≡ all_spelled (code ∷ key ∷ value ∷ count ∷ []) ++ (newline ∷ []) }
{
    let mut out = [0u8; 33];
    write_answer::<u32>(&mut out, 0, code, key, value, count);
    out
}

// The line of an answer whose key is two words, the high one first; the code may be any word.
#[tactic(auto, using(line::proofs::Put::nothing_else))]
pub fn answer_line64(code: u32, key: u64, value: u32, count: u32) -> [u8; 41]
    ensures { result ≡ all_spelled (code ∷ key / word_values ∷ key % word_values ∷ value ∷ count ∷ []) ++ (newline ∷ []) }
{
    let mut out = [0u8; 41];
    write_answer::<u64>(&mut out, 0, code, key, value, count);
    out
}
