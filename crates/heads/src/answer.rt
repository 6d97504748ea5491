// Answers, and how they are worded.
ghost use Rattle.std.specs.Prelude.{◌≡◌, ℕ, suc};
ghost use Rattle.rules.specs.Edition.{edition};
ghost use Rattle.rules.specs.Command.{code_number};
ghost use Rattle.rules.specs.Arena.{slot_at};
ghost use Rattle.node.specs.Stands.{Inside};
ghost use Rattle.heads.specs.declared.answer.Code.TheVariants as code;
ghost use Rattle.heads.specs.Worded.{code_of, Words};

use node::{Key, key_of, value};

// What an answer says of its command: the codes 0 to 7; those with which whole calls are refused; and the line program's.
#[derive(Clone, Copy, Debug, PartialEq, Eq)]
pub enum Code {
    Found,
    Absent,
    New,
    Replaced,
    Removed,
    Full,
    Count,
    Unknown,
    Size,
    Short,
    Damaged,
    Ragged,
    NoRoom,
    BadLine,
}

// The code as a word.
impl From<Code> for u32 {
    ghost from_gives = { λ code n. n ≡ code_number (code_of code) };

    fn from(code: Code) -> u32 {
        match code {
            Code::Found => 0,
            Code::Absent => 1,
            Code::New => 2,
            Code::Replaced => 3,
            Code::Removed => 4,
            Code::Full => 5,
            Code::Count => 6,
            Code::Unknown => 7,
            Code::Size => 10,
            Code::Short => 11,
            Code::Damaged => 12,
            Code::Ragged => 13,
            Code::NoRoom => 14,
            Code::BadLine => 15,
        }
    }
}

// An answer: "a code, a key, a value and the count".
#[derive(Clone, Copy, Debug, PartialEq, Eq)]
pub struct Answer<K> {
    pub code: Code,
    pub key: K,
    pub value: u32,
    pub count: u32,
}

impl<K: Key> Answer<K> {
    // An answer without an entry.
    pub fn bare(code: Code, count: u32) -> Answer<K>
        ensures { Words K.number result code 0 0 count }
    {
        Answer {
            code,
            key: K::zero(),
            value: 0,
            count,
        }
    }

    // An answer with the entry that the link x leads to.
    pub fn entry(a: &[u32], x: u32, code: Code, count: u32) -> Answer<K>
        requires { Inside K.WORDS a.now x }
        ensures { (s : ℕ) → x ≡ suc s →
            (let c = slot_at (edition K.WORDS) a.now s in Words K.number result code c.key c.value count) }
    {
        Answer {
            code,
            key: key_of(a, x),
            value: value::<K>(a, x),
            count,
        }
    }

    // The answer to clear and to length.
    pub fn counted(n: u32) -> Answer<K>
        ensures { Words K.number result code.Count 0 n 0 }
    {
        Answer {
            code: Code::Count,
            key: K::zero(),
            value: n,
            count: 0,
        }
    }
}
