// Starting a memory: every word is zero.
ghost use Rattle.link.specs.Start.{StartsWords};
ghost use Rattle.iwadare.specs.Memory.{coder_words, decoder_words};

use crate::memory::{CODER_WORDS, DECODER_WORDS};
use link::refusal::Refusal;
use link::start::start;

pub fn start_coder(state: &mut [u64]) -> Result<(), Refusal>
    ensures { StartsWords coder_words state.old result state.new }
{
    start(state, CODER_WORDS)
}

pub fn start_decoder(state: &mut [u64]) -> Result<(), Refusal>
    ensures { StartsWords decoder_words state.old result state.new }
{
    start(state, DECODER_WORDS)
}
