// Words from and to hexadecimal digits, eight of them each, the highest first. Of lines and keys nothing is known here. Both tables are
// made once and then lent, because making one costs more than reading it. It may be assumed that the eight bytes are there.
#![tactic(auto)]

mod bytes;
mod digits;
mod tables;

ghost use Rattle.std.specs.Prelude.{◌≡◌};
ghost use Rattle.rules.specs.Lines.{digit};
ghost use Rattle.digits.specs.Read.{coded};

pub use bytes::Bytes;
pub use digits::Digits;

// The digit that a byte stands for, 16 where it is none, as the table has it (`coded`). It takes any byte.
pub fn digit(b: u8) -> u8
    ensures { result ≡ coded (digit b) }
{
    Digits::new().digit(b)
}
