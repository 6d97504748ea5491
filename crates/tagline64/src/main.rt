// The line program for keys of two words: its key, the words of its arena, and its name. (One call of the one program, so nothing is left
// that could be shared.) Assumes nothing.
#![tactic(auto)]

use server::program;
use std::process::ExitCode;

// The status that the process ends with is the program's.
fn main(rt: HostRuntime) -> ExitCode {
    let mut arena = [0u32; 5124];
    program::<u64, _, _, _>(
        &rt,
        &mut rt.stdin(),
        &mut rt.stdout(),
        "tagline64",
        &mut arena,
        1024,
    )
}
