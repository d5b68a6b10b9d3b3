// The coder and the decoder on lent memory.
#![tactic(auto)]

pub mod code;
pub mod code_batch;
pub mod decode;
pub mod decode_batch;
mod fit;
pub mod refusal;
pub mod start;
pub mod stream;
