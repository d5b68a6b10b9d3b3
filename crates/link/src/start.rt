// Starting a memory, coder's or decoder's: every word is zero.
ghost use Rattle.std.specs.Prelude.{◌≡◌, length, replicate};
ghost use Rattle.tables.specs.Table.{fit};
ghost use Rattle.link.specs.Memory.{coder_words, decoder_words};
ghost use Rattle.link.specs.Start.{StartsWords, Starts};

use crate::refusal::Refusal;
use tables::table::{Table, is_fit};

fn clear(state: &mut [u64])
    ensures { state.new ≡ replicate (length state.old) 0 }
{
    state.fill(0);
}

fn fits(t: Table) -> bool
    ensures { result ≡ fit t }
{
    is_fit(t.symbols, t.span, t.depth, &t.rows)
}

// A memory that is to have so many words, whatever the code: 13 alone is looked at.
pub fn start(state: &mut [u64], words: usize) -> Result<(), Refusal>
    ensures { StartsWords words state.old result state.new }
{
    if state.len() != words {
        return Err(Refusal::WrongLength);
    }
    clear(state);
    Ok(())
}

pub fn start_coder(t: Table, state: &mut [u64]) -> Result<(), Refusal>
    ensures { Starts t (coder_words t) state.old result state.new }
{
    if fits(t) {
        start(state, 1 + t.depth)
    } else {
        Err(Refusal::UnfitTable)
    }
}

pub fn start_decoder(t: Table, state: &mut [u64]) -> Result<(), Refusal>
    ensures { Starts t (decoder_words t) state.old result state.new }
{
    if fits(t) {
        start(state, 2 + t.depth * (t.span + 1))
    } else {
        Err(Refusal::UnfitTable)
    }
}
