// The Iwadare-Massey stations: coder and decoder on lent memory.
#![tactic(auto)]

pub mod code;
pub mod decode;
mod memory;
pub mod start;
