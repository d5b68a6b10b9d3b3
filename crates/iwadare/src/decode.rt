// The decoder: one step on lent memory.
ghost use Rattle.std.specs.Prelude.{◌≡◌, [], ◌∷◌, ◌++◌, ◌/◌, ◌^◌, ◌<◌, length, get_or, set, drop, Ok};
ghost use Rattle.span.specs.Word.{◌⊕◌, sel};
ghost use Rattle.link.specs.Refusals.{some_above, settled};
ghost use Rattle.iwadare.specs.Memory.{fill_of, fill_next};
ghost use Rattle.iwadare.specs.Refusals.{decoder_malformed, decoder_fault};
ghost use Rattle.iwadare.specs.Decoder.{flips_symbol1, flips_symbol0, terms_next, delivery, decoder_next, Decodes};

use crate::code::image;
use crate::memory::{
    BACK_15, DECODER_WORDS as WORDS, DELAY, DELAYED_BOUND, FILL, OLDEST, PENDING, PENDING_BOUND,
    RECEIVED_BOUND, TERMS, TERMS_BOUND,
};
use link::refusal::Refusal;
use link::stream::{next_fill, push};
use span::bits::select;
use span::dual::together;

// The weight of the newest of 13 terms.
const NEWEST: u64 = 1 << 12;

// What 13 terms say: the terms that stay, and what is flipped of the block 18 back and of the one 15 back.
#[derive(Clone, Copy)]
struct Verdict {
    terms: u64,
    symbol0: u64,
    symbol1: u64,
}

// ---- refusals

// Whether a delayed block is 4 or more: their ones together are, since 4 is a power of two, and no branch is taken for
// each.
fn delayed_above(memory: &[u64; WORDS]) -> bool
    ensures { result ≡ some_above 4 memory.now 3 18 }
{
    DELAYED_BOUND <= together(&memory[OLDEST..])
}

// The condition of 14.
fn malformed(memory: &[u64; WORDS]) -> bool
    ensures { result ≡ decoder_malformed memory.now }
{
    DELAY < memory[FILL]
        || PENDING_BOUND <= memory[PENDING]
        || TERMS_BOUND <= memory[TERMS]
        || delayed_above(memory)
}

// Whether one of refusals 14 and 15 applies: the first of them. 13 cannot, of 21 words.
fn fault(memory: &[u64; WORDS], received: u64) -> Result<(), Refusal>
    ensures { result ≡ settled (decoder_fault memory.now received) }
{
    if malformed(memory) {
        return Err(Refusal::MalformedMemory);
    }
    if RECEIVED_BOUND <= received {
        return Err(Refusal::BlockTooLarge);
    }
    Ok(())
}

// ---- a step

// The two rules on 13 terms, of which the newest is bit 12: where it is 0 nothing is flipped.
fn judged(x: u64) -> Verdict
    requires { x < 2 ^ 13 }
    ensures terms { result.terms ≡ terms_next x }
    ensures symbol0 { result.symbol0 ≡ sel (flips_symbol0 x) 1 }
    ensures symbol1 { result.symbol1 ≡ sel (flips_symbol1 x) 2 }
{
    let unflipped = Verdict {
        terms: x >> 1,
        symbol0: 0,
        symbol1: 0,
    };
    if x < NEWEST {
        return unflipped;
    }
    if x % 2 == 1 {
        return Verdict {
            terms: (x ^ (NEWEST | 1)) >> 1,
            symbol1: 2,
            ..unflipped
        };
    }
    if (x >> 1) % 2 == 1 {
        return Verdict {
            terms: (x ^ (NEWEST | 2)) >> 1,
            symbol0: 1,
            ..unflipped
        };
    }
    unflipped
}

// The block 15 back, flipped in the symbol of that weight. Where that is 0 nothing is written, so that the word is not
// read just after a write, when the blocks move.
fn flip(memory: &mut [u64; WORDS], weight: u64)
    ensures { memory.new ≡ set memory.old 6 (get_or memory.old 6 0 ⊕ weight) }
{
    if weight != 0 {
        memory[BACK_15] ^= weight;
    }
}

// The memory after a step: the block 15 back is flipped by the weight, w halved stays, and the delayed blocks move.
fn keep(memory: &mut [u64; WORDS], w: u64, terms: u64, weight: u64, youngest: u64)
    ensures { memory.new ≡ fill_next (fill_of memory.old) ∷ w / 2 ∷ terms
        ∷ (drop 4 (set memory.old 6 (get_or memory.old 6 0 ⊕ weight)) ++ (youngest ∷ [])) }
{
    flip(memory, weight);
    memory[FILL] = next_fill(DELAY, memory[FILL]);
    memory[PENDING] = w >> 1;
    memory[TERMS] = terms;
    push(memory, OLDEST, youngest);
}

// A step that no refusal applies to. The two generators are those of the two low bits, the received information. It is
// not one with the decoder's of `link`: the terms flip two blocks here, and there they are solved for one.
fn taken(memory: &mut [u64; WORDS], received: u64) -> Option<u16>
    requires { decoder_fault memory.old received ≡ 0 }
    ensures answer { Ok result ≡ delivery memory.old received }
    ensures memory { memory.new ≡ decoder_next memory.old received }
{
    let [fill, pending, terms, oldest, ..] = *memory;
    let w = pending ^ image(received);
    let v = judged(terms + select(NEWEST, w ^ (received >> 2)));
    keep(memory, w, v.terms, v.symbol1, received % 4);
    if fill < DELAY {
        return None;
    }
    Some((oldest ^ v.symbol0) as u16)
}

// None is "nothing yet". A delivery is the oldest delayed block, flipped where it is to be: over a run, that of the
// block taken 18 places before.
pub fn decode(state: &mut [u64], received: u16) -> Result<Option<u16>, Refusal>
    ensures { Decodes state.old received result state.new }
{
    let Some(memory) = state.as_mut_array() else {
        return Err(Refusal::WrongLength);
    };
    let block = received as u64;
    fault(memory, block)?;
    Ok(taken(memory, block))
}
