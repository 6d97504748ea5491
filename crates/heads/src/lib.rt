// What every command stands on: commands and answers, with names for their numbers; the head of a tree and its free chain, wherever its
// words are kept; and, in `specs/`, what a command promises of a tree under a head and of a whole arena. Only `Answer::entry` reads words:
// it may assume that its link leads to a slot within them. Nothing here changes a word.
#![tactic(auto)]

mod answer;
mod command;
mod head;
mod refusal;

pub use answer::{Answer, Code};
pub use command::Command;
pub use head::{Done, Head};
pub use refusal::{Refusal, returned};
