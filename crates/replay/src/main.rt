// Replays the recorded lists. Standard input holds makings and commands in the format of oracle/README.md, each line with its newline: n
// begins an arena of the map and s one of the set, N and S the same with keys of two words. They are done by the public calls of the map
// and of the set, in one arena, and each command's answer goes to standard output as the oracle writes it, with the sum of the tree's
// shape; so what is written has to be, byte for byte, what the Rust answered. A read or a write that fails ends the program with its error.
#![tactic(auto)]

mod kind;
mod line;
mod shape;
mod waiting;

use calls::Command;
use kind::{Keys, Kind, Tree};
use line::Line;
use map::Key;
use shape::shape_sum;
use std::io::{self, Read, Stdin};
use waiting::Waiting;

// The arena, its kind, whether its first take has passed, and the answers that wait.
#[derive(Drop)]
struct Replay {
    arena: [u32; 20480],
    kind: Kind,
    // A state that is so or not: no value goes with it.
    taking: bool,
    out: Waiting,
}

impl Replay {
    // The sum of the tree's shape. A tree in the middle of a drain has none in the recorded list.
    fn shape<K: Key>(&self) -> Option<u32> {
        if self.taking {
            None
        } else {
            Some(shape_sum::<K>(&self.arena))
        }
    }

    // Does the line's command, and puts its answer.
    fn answer<K: Key>(&mut self, line: &Line) -> io::Result<()> {
        let number = line.number();
        let key = line.key::<K>();
        let value = line.value::<K>();
        let answer = match self.kind.tree {
            Tree::Map => map::one(&mut self.arena, number, key, value),
            Tree::Set => set::one(&mut self.arena, number, key, value),
        };
        let command = Command::numbered(number, key, value);
        self.taking |= matches!(command, Command::TakeFirst | Command::TakeLast);
        let shape = self.shape::<K>();
        self.out.put(answer, shape)
    }

    // Makes an arena of so many slots. Where that is refused, no word has changed.
    fn begin(&mut self, kind: Kind, slots: u32) {
        let _ = match kind.keys {
            Keys::Narrow => map::make::<u32>(&mut self.arena, slots),
            Keys::Wide => map::make::<u64>(&mut self.arena, slots),
        };
        self.kind = kind;
        self.taking = false;
    }

    // Does what a whole line says: makes the arena anew, or does a command.
    fn obey(&mut self, line: &Line) -> io::Result<()> {
        if let Some((kind, slots)) = line.making() {
            self.begin(kind, slots);
            return Ok(());
        }
        match self.kind.keys {
            Keys::Narrow => self.answer::<u32>(line),
            Keys::Wide => self.answer::<u64>(line),
        }
    }

    // Takes the bytes of one read. Where the reads cut a line does not matter, since what was read of it is kept.
    fn take(&mut self, line: &mut Line, bytes: &[u8]) -> io::Result<()> {
        for &b in bytes {
            if line.take(b) {
                self.obey(line)?;
            }
        }
        Ok(())
    }

    // Takes all of the input. A proved loop has to end, and nothing says that the input does. So the reads are counted, up to a number that
    // no run uses up.
    fn run(&mut self, mut from: Stdin) -> io::Result<()> {
        let mut line = Line::new();
        let mut buf = [0; 65536];
        for _ in 0..u64::MAX {
            let n = from.read(&mut buf)?;
            if n == 0 {
                break;
            }
            self.take(&mut line, &buf[..n])?;
        }
        Ok(())
    }
}

fn main(rt: HostRuntime) -> io::Result<()> {
    let mut replay = Replay {
        arena: [0; 20480],
        kind: Kind {
            tree: Tree::Map,
            keys: Keys::Narrow,
        },
        taking: false,
        out: Waiting::new(rt.stdout()),
    };
    let done = replay.run(rt.stdin());
    // What was answered before a read failed is written all the same.
    replay.out.flush()?;
    done
}
