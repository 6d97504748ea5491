// The commands by which an entry comes or goes: insert, remove, take first, take last. A slot leaves the free chain, or becomes its first.
// They may assume that a tree and its free chain stand under their head, in slots within the words, and change no word outside those slots.
#![tactic(auto)]

mod adding;
mod removing;

pub use adding::insert;
pub use removing::{remove, take};
