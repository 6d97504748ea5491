// The map's calls under plain names, for a program in C or Rust that links the static library (`rt lib` in this folder writes
// out/libhost.a). A slice is its first word's address and its length in words. What such a caller must keep to nobody checks: the words
// are there, and the slices do not overlap. (C has no type parameters, so each edition has a library and names of its own; and no Result,
// so a refusal is its number.)
#![tactic(auto)]

ghost use Rattle.std.specs.Prelude.{◌≡◌};
ghost use Rattle.rules.specs.Edition.{tags};
ghost use Rattle.rules.specs.Reading.{as_map};
ghost use Rattle.rules.specs.Calls.{make, Run};

use calls::returned;

#[unsafe(no_mangle)]
pub extern "C" fn mingdholep_make(a: &mut [u32], n: u32) -> u32
    ensures { (result ≡ (make tags n a.old).returned) × (a.new ≡ (make tags n a.old).arena) }
{
    returned(map::make::<u32>(a, n))
}

#[unsafe(no_mangle)]
pub extern "C" fn mingdholep_run(a: &mut [u32], list: &[u32], answers: &mut [u32]) -> u32
    ensures { Run tags as_map list.now a.old answers.old
        (record { returned = result; arena = a.new; answers = answers.new }) }
{
    returned(map::run::<u32>(a, list, answers))
}
