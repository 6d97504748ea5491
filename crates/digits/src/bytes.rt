// Words that are written.
ghost use Rattle.std.specs.Prelude.{◌≡◌, ◌+◌, ◌<◌, ◌≤◌, length};
ghost use Rattle.std.proofs.lemmas.List.Edits.{sets};
ghost use Rattle.rules.specs.Lines.{byte_of, spelled};
ghost use Rattle.digits.specs.Read.{ByteTable};

use crate::tables::BYTES;

// The table of the digits' bytes. What it holds is proved where it is made.
#[derive(Clone, Copy)]
pub struct Bytes {
    table: [u8; 16],
    ghost right: { ByteTable table },
}

impl Bytes {
    pub fn new() -> Bytes {
        Bytes { table: BYTES }
    }

    // The same of any table that holds the digits' bytes.
    pub fn over(table: [u8; 16]) -> Bytes
        requires { ByteTable table }
    {
        Bytes { table }
    }

    // The byte of a digit.
    pub fn byte(&self, d: u32) -> u8
        requires { d < 16 }
        ensures { result ≡ byte_of d }
    {
        self.table[d as usize]
    }

    // Writes the eight digits of a word, the low one first, at the right end. Nothing else writes digits. (By hand: std promises no bytes
    // of what it formats, and `spelled` does.)
    #[tactic(auto, using(crate::proofs::Spelled::writing))]
    pub fn spell_word(&self, out: &mut [u8], at: usize, w: u32)
        requires { at + 8 ≤ length out.old }
        ensures { out.new ≡ sets out.old at (spelled 8 w) }
    {
        let mut rest = w;
        for i in 0..8 {
            let place = 7 - i;
            out[at + place] = self.byte(rest % 16);
            rest = rest / 16;
        }
    }
}
