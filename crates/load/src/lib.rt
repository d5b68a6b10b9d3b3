// The test load, which anyone can repeat: what a fading channel makes of the all-zero message, drawn from a seed.
#![tactic(auto)]

pub mod fill;
pub mod generator;
