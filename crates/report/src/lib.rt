// What the listing program prints of an input: lines as bytes, its opening, and then one part after the other.
#![tactic(auto)]

pub mod opening;
pub mod part;
mod text;
