// The coder: one step on lent memory.
ghost use Rattle.std.specs.Prelude.{◌≡◌, ◌<◌};
ghost use Rattle.span.specs.Combination.{combination};
ghost use Rattle.link.specs.Refusals.{settled};
ghost use Rattle.iwadare.specs.Memory.{generators};
ghost use Rattle.iwadare.specs.Refusals.{coder_fault};
ghost use Rattle.iwadare.specs.Coder.{coded_block, coder_next, Codes};

use crate::memory::{CODER_WORDS, DELAYED_BOUND, PENDING_BOUND};
use link::refusal::Refusal;
use span::bits::select;
use span::combine::combination;

// D^7 + D^18 and D^3 + D^15: bit k is the coefficient of D^k.
const GENERATORS: [u64; 2] = [1 << 7 | 1 << 18, 1 << 3 | 1 << 15];

// The generators of the ones in a block's information, added.
pub(crate) fn image(info: u64) -> u64
    ensures { result ≡ combination generators info }
{
    combination(&GENERATORS, GENERATORS.len(), info)
}

// Whether one of refusals 14 and 15 applies: the first of them. 13 cannot, of one word.
fn fault(memory: &[u64; CODER_WORDS], info: u64) -> Result<(), Refusal>
    ensures { result ≡ settled (coder_fault memory.now info) }
{
    if PENDING_BOUND <= memory[0] {
        return Err(Refusal::MalformedMemory);
    }
    if DELAYED_BOUND <= info {
        return Err(Refusal::BlockTooLarge);
    }
    Ok(())
}

// A step that no refusal applies to: the parity is bit 0 of w, and w halved stays. It is not one with the coder's of
// `link`, whose memory has a turn and a word for each stream: a step shared would be handed what is fixed here.
fn taken(memory: &mut [u64; CODER_WORDS], info: u64) -> u64
    requires { info < 4 }
    ensures block { result ≡ coded_block memory.old info }
    ensures memory { memory.new ≡ coder_next memory.old info }
{
    let w = memory[0] ^ image(info);
    memory[0] = w >> 1;
    info + select(4, w)
}

pub fn code(state: &mut [u64], info: u16) -> Result<u16, Refusal>
    ensures { Codes state.old info result state.new }
{
    let Some(memory) = state.as_mut_array() else {
        return Err(Refusal::WrongLength);
    };
    let block = info as u64;
    fault(memory, block)?;
    Ok(taken(memory, block) as u16)
}
