// The calls of the map with keys of two words under plain names, for a program in C or Rust that links the static library (`rt lib` in
// this folder writes out/libhost64.a). A slice is its first word's address and its length in words. What such a caller must keep to nobody
// checks: the words are there, and the slices do not overlap. (C has no type parameters, so each edition has a library and names of its
// own; and no Result, so a refusal is its number.)
#![tactic(auto)]

ghost use Rattle.std.specs.Prelude.{◌≡◌};
ghost use Rattle.rules.specs.Edition.{tags64};
ghost use Rattle.rules.specs.Reading.{as_map};
ghost use Rattle.rules.specs.Calls.{make, Run};

use calls::returned;

#[unsafe(no_mangle)]
pub extern "C" fn mingdholep64_make(a: &mut [u32], n: u32) -> u32
    ensures { (result ≡ (make tags64 n a.old).returned) × (a.new ≡ (make tags64 n a.old).arena) }
{
    returned(map::make::<u64>(a, n))
}

#[unsafe(no_mangle)]
pub extern "C" fn mingdholep64_run(a: &mut [u32], list: &[u32], answers: &mut [u32]) -> u32
    ensures { Run tags64 as_map list.now a.old answers.old
        (record { returned = result; arena = a.new; answers = answers.new }) }
{
    returned(map::run::<u64>(a, list, answers))
}
