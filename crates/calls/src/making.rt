// Making an arena.
ghost use Rattle.std.specs.Prelude.{◌≡◌};
ghost use Rattle.rules.specs.Edition.{edition};
ghost use Rattle.rules.specs.Calls.{make};
ghost use Rattle.heads.specs.Worded.{returned};

use commands::{Refusal, fresh};
use node::Key;

// A new arena of n slots in the lent words.
#[tactic(auto, unfolding(rules::specs::Calls::make))]
pub fn make<K: Key>(a: &mut [u32], n: u32) -> Result<(), Refusal>
    ensures { (returned result ≡ (make (edition K.WORDS) n a.old).returned)
        × (a.new ≡ (make (edition K.WORDS) n a.old).arena) }
{
    if n == 0 {
        return Err(Refusal::Size);
    }
    if 4095 < n {
        return Err(Refusal::Size);
    }
    if a.len() < 4 + (3 + K::WORDS) * (n as usize) {
        return Err(Refusal::Short);
    }
    fresh::<K>(a, n);
    Ok(())
}
