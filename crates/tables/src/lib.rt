// Tables of the code: fitness, judging, reading, writing and making.
#![tactic(auto)]

pub mod judge;
pub mod make;
pub mod read;
pub mod table;
pub mod write;
