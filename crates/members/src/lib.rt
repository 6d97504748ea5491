// The set's calls by name: is a key there, put it in, take it out. They stand on the contract of `calls::one` alone, and assume nothing of
// any word that they are lent.
#![tactic(auto)]

ghost use Rattle.std.specs.Prelude.{◌≡◌};
ghost use Rattle.rules.specs.Command.{get, insert, remove};
ghost use Rattle.heads.specs.Worded.{code_of};
ghost use Rattle.members.specs.Asked.{was_of, Asks};

use calls::{Code, Command, Key, Reading, one};

// Whether a key was in the set before a call.
#[derive(Clone, Copy, Debug, PartialEq, Eq)]
pub enum Was {
    There,
    Absent,
}

// Why a call about a key did nothing. `Full`: the key was absent, and there was no room for it. `Damaged`: the arena is not well formed.
#[derive(Clone, Copy, Debug, PartialEq, Eq)]
pub enum Refused {
    Full,
    Damaged,
}

// What an answer's code says of the key.
impl TryFrom<Code> for Was {
    type Error = Refused;

    ghost try_from_gives = { λ code r. r ≡ was_of (code_of code) };

    fn try_from(code: Code) -> Result<Was, Refused> {
        match code {
            Code::Found | Code::Replaced | Code::Removed => Ok(Was::There),
            Code::Absent | Code::New => Ok(Was::Absent),
            Code::Full => Err(Refused::Full),
            _ => Err(Refused::Damaged),
        }
    }
}

// Is the key in the set? The tree is splayed.
pub fn contains<K: Key>(a: &mut [u32], key: K) -> Result<Was, Refused>
    ensures { Asks K.WORDS (get (K.number key)) a.old (record { was = result; arena = a.new }) }
{
    let r = one(a, Reading::AsSet, Command::Get(key));
    Was::try_from(r.code)
}

// Puts the key into the set. Where it was absent, it is new.
pub fn insert<K: Key>(a: &mut [u32], key: K) -> Result<Was, Refused>
    ensures { Asks K.WORDS (insert (K.number key) 0) a.old (record { was = result; arena = a.new }) }
{
    let r = one(a, Reading::AsSet, Command::Insert(key, 0));
    Was::try_from(r.code)
}

// Takes the key out of the set, if it was there.
pub fn remove<K: Key>(a: &mut [u32], key: K) -> Result<Was, Refused>
    ensures { Asks K.WORDS (remove (K.number key)) a.old (record { was = result; arena = a.new }) }
{
    let r = one(a, Reading::AsSet, Command::Remove(key));
    Was::try_from(r.code)
}
