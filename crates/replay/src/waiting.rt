// The lines of the answers, gathered, so that one write takes many.
ghost use Rattle.std.specs.Prelude.{◌≡◌, ◌+◌, ◌*◌, ◌<◌, ◌≤◌};
ghost use Rattle.arrayvec.specs.ArrayVec.{array_vec_len};

use arrayvec::ArrayVec;
use map::{Answer, Key};
use std::io::{self, Stdout, Write};

// The most bytes of a line: 40 digits, a space, the shape's 8, a newline.
const WIDTH: usize = 50;

// The bytes that wait, and where they go. (No heap: an ArrayVec's bytes lie in the value itself.)
#[derive(Drop)]
pub struct Waiting {
    to: Stdout,
    bytes: ArrayVec<u8, 65536>,
}

// The byte of a digit.
fn byte_of(digit: u64) -> u8
    requires { digit < 16 }
{
    if digit < 10 {
        b'0' + digit as u8
    } else {
        b'a' - 10 + digit as u8
    }
}

// Puts so many digits of a number, the low one first, at the right end. (By hand: std says of a number that it writes neither its bytes nor
// how many they are.)
fn spell(line: &mut [u8; 50], at: usize, digits: usize, number: u64)
    requires { at + digits ≤ 50 }
{
    let mut rest = number;
    for i in 0..digits {
        let place = digits - 1 - i;
        line[at + place] = byte_of(rest % 16);
        rest = rest / 16;
    }
}

// Puts the line of an answer, whole, behind the bytes that wait, where there is room for the longest; with dashes where there is no shape.
fn put_line<K: Key>(to: &mut ArrayVec<u8, 65536>, answer: Answer<K>, shape: Option<u32>)
    requires { array_vec_len to.old + 50 ≤ 65536 }
    ensures { array_vec_len to.new ≡ array_vec_len to.old + (34 + 8 * K.WORDS) }
{
    let digits = 8 * K::WORDS;
    let mut line = [b'-'; 50];
    spell(&mut line, 0, 8, u64::from(u32::from(answer.code)));
    spell(&mut line, 8, digits, answer.key.number());
    let rest = 8 + digits;
    spell(&mut line, rest, 8, u64::from(answer.value));
    spell(&mut line, rest + 8, 8, u64::from(answer.count));
    line[rest + 16] = b' ';
    if let Some(sum) = shape {
        spell(&mut line, rest + 17, 8, u64::from(sum));
    }
    line[rest + 25] = b'\n';
    let _ = to.try_extend_from_slice(&line[..rest + 26]);
}

impl Waiting {
    pub fn new(to: Stdout) -> Waiting {
        Waiting {
            to,
            bytes: ArrayVec::new(),
        }
    }

    // Writes the bytes that wait. After a write that failed none waits.
    pub fn flush(&mut self) -> io::Result<()>
        ensures { array_vec_len self.new.bytes ≡ 0 }
    {
        let written = self.to.write_all(&self.bytes);
        self.bytes.clear();
        written
    }

    // Puts the line of an answer behind the bytes that wait. Where there is no room for it, they are written first.
    pub fn put<K: Key>(&mut self, answer: Answer<K>, shape: Option<u32>) -> io::Result<()> {
        if self.bytes.remaining_capacity() < WIDTH {
            self.flush()?;
        }
        put_line(&mut self.bytes, answer, shape);
        Ok(())
    }
}
