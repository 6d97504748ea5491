// What the trait asks of a key of a caller's own, and what a caller gets of any key.
ghost use Rattle.std.specs.Prelude.{◌≡◌, ◌+◌, ◌*◌};
ghost use Rattle.std.proofs.Common.{rules};

use super::*;

// A bed of a ward, as a key of one word. This is all that an impl has to write, also where `number` has a clause of its own.
#[derive(Clone, Copy)]
struct Bed {
    ward: u16,
    bed: u16,
}

impl Key for Bed {
    ghost WORDS = { 1 };

    const WORDS: usize = 1;

    ghost number = { λ k. 65536 * k.ward + k.bed };

    ghost width = { Prim.search rules };

    fn number(self) -> u64
        ensures { result ≡ 65536 * self.ward + self.bed }
    {
        65536 * u64::from(self.ward) + u64::from(self.bed)
    }

    fn zero() -> Bed {
        Bed { ward: 0, bed: 0 }
    }

    fn at(a: &[u32], i: usize) -> Bed {
        Bed {
            ward: (a[i] / 65536) as u16,
            bed: (a[i] % 65536) as u16,
        }
    }

    fn put_at(self, a: &mut [u32], i: usize) {
        a[i] = 65536 * u32::from(self.ward) + u32::from(self.bed);
    }
}

// The number of any key, as `number` gives it and as `spelled_number` does.
fn both<K: Key>(key: K) -> (u64, u64) {
    (key.number(), key.spelled_number())
}

#[test]
fn numbers_of_keys(rt: HostRuntime) {
    for (ward, bed, want) in [(0, 0, 0), (3, 7, 196615), (65535, 65535, 4294967295)] {
        assert_eq!(rt;
            both(Bed { ward, bed }),
            (want, want),
            "ward {ward}, bed {bed}"
        );
    }
    for (key, want) in [(0, 0), (70000, 70000), (4294967295, 4294967295)] {
        assert_eq!(rt; both::<u32>(key), (want, want), "{key}");
    }
    for (key, want) in [
        (9, 9),
        (21474836489, 21474836489),
        (18446744073709551615, 18446744073709551615),
    ] {
        assert_eq!(rt; both::<u64>(key), (want, want), "{key}");
    }
}
