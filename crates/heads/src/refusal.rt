// Why a whole call is refused.
ghost use Rattle.std.specs.Prelude.{◌≡◌};
ghost use Rattle.rules.specs.Command.{code_number};
ghost use Rattle.heads.specs.Worded.{refused_with, returned};

// SIZE: N is 0 or too large. SHORT: too few words for N slots. DAMAGED: the arena is not well formed. RAGGED: the list ends within a
// command. NO ROOM: too few words for the answers.
#[derive(Clone, Copy, Debug, PartialEq, Eq)]
pub enum Refusal {
    Size,
    Short,
    Damaged,
    Ragged,
    NoRoom,
}

// The refusal's code, as a word.
impl From<Refusal> for u32 {
    ghost from_gives = { λ refusal n. n ≡ code_number (refused_with refusal) };

    fn from(refusal: Refusal) -> u32 {
        match refusal {
            Refusal::Size => 10,
            Refusal::Short => 11,
            Refusal::Damaged => 12,
            Refusal::Ragged => 13,
            Refusal::NoRoom => 14,
        }
    }
}

// "Returns 0 where it is accepted, and the code where it is refused": the word for a caller in C.
pub fn returned(done: Result<(), Refusal>) -> u32
    ensures { result ≡ returned done }
{
    match done {
        Ok(()) => 0,
        Err(refusal) => u32::from(refusal),
    }
}
