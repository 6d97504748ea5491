// Words that are read.
ghost use Rattle.std.specs.Prelude.{◌≡◌, ◌+◌, ◌≤◌, length, take, drop};
ghost use Rattle.rules.specs.Lines.{digit, digits};
ghost use Rattle.digits.specs.Read.{coded, DigitTable, word_from};

use crate::tables::{BAD, DIGITS};

// The table of the digits. What it holds is proved where it is made, over all 256 entries at once.
#[derive(Clone, Copy)]
pub struct Digits {
    table: [u8; 256],
    ghost right: { DigitTable table },
}

impl Digits {
    pub fn new() -> Digits {
        Digits { table: DIGITS }
    }

    // The same of any table that holds the digits.
    pub fn over(table: [u8; 256]) -> Digits
        requires { DigitTable table }
    {
        Digits { table }
    }

    // The digit that a byte stands for, 16 where it is none. (No Option: the table has a byte for each, and `coded` is the contract.)
    pub fn digit(&self, b: u8) -> u8
        ensures { result ≡ coded (digit b) }
    {
        self.table[b as usize]
    }

    // The word that eight bytes of the line spell, or that one of them is no digit.
    #[tactic(auto, using(crate::proofs::Taken::reading))]
    pub fn read_word(&self, line: &[u8], at: usize) -> Option<u32>
        requires { at + 8 ≤ length line.now }
        ensures { result ≡ word_from 0 (digits (take 8 (drop at line.now))) }
    {
        let mut n: u32 = 0;
        for i in 0..8 {
            let d = self.digit(line[at + i]);
            if d == BAD {
                return None;
            }
            n = 16 * n + u32::from(d);
        }
        Some(n)
    }
}
