// The commands by which no entry comes or goes: get, write if present, next, prev, min, max; and `bring`, which brings a key to the root.
// They may assume that a tree stands under its head, in slots within the words, and change no word outside that tree's slots.
#![tactic(auto)]

mod lookup;
mod neighbours;

pub use lookup::{Met, bring, get, write};
pub use neighbours::{neighbour, outer};
