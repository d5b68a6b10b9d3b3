// The coder: one step on lent memory.
ghost use Rattle.std.specs.Prelude.{◌≡◌, [], ◌+◌, ◌/◌, ◌^◌, ◌≤◌, ◌<◌, length, get_or, set};
ghost use Rattle.span.specs.Word.{◌⊕◌, odd, sel};
ghost use Rattle.tables.specs.Lent.{lent};
ghost use Rattle.link.specs.Fit.{table_of};
ghost use Rattle.link.specs.Memory.{coder_words, turn_of, pending_at, next_turn};
ghost use Rattle.link.specs.Refusals.{coder_malformed, coder_fault, settled};
ghost use Rattle.link.specs.Coder.{Codes};

use crate::fit::FitTable;
use crate::refusal::Refusal;
use crate::stream::next_turn;
use span::bits::{mask, select};
use span::combine::combination;
use tables::table::Table;

// The condition of 14: the turn is tested before it is an index. It is not the decoder's: a coder has no fill, no
// syndrome word and no delayed block.
pub(crate) fn malformed(t: &FitTable, state: &[u64]) -> bool
    requires { length state.now ≡ coder_words (table_of t.now) }
    ensures { result ≡ coder_malformed (table_of t.now) state.now }
{
    let turn = state[0];
    if t.depth as u64 <= turn {
        return true;
    }
    mask(t.span - 1) < state[1 + (turn as usize)]
}

// Whether one of refusals 13 to 15 applies: the first of them.
fn fault(t: &FitTable, state: &[u64], block: u64) -> Result<(), Refusal>
    ensures { result ≡ settled (coder_fault (table_of t.now) state.now block) }
{
    if state.len() != t.coder_words() {
        return Err(Refusal::WrongLength);
    }
    if malformed(t, state) {
        return Err(Refusal::MalformedMemory);
    }
    if mask(t.symbols - 1) < block {
        return Err(Refusal::BlockTooLarge);
    }
    Ok(())
}

// The turn's stream, whose part is its pending word: w is that word and the image of the information, and w halved
// stays.
fn join(part: &mut [u64], image: u64) -> u64
    requires { length part.old ≡ 1 }
    ensures word { result ≡ get_or part.old 0 0 ⊕ image }
    ensures part { part.new ≡ set part.old 0 ((get_or part.old 0 0 ⊕ image) / 2) }
{
    let w = part[0] ^ image;
    part[0] = w >> 1;
    w
}

// A step that no refusal applies to, in numbers: the weight of the parity, which is bit 0 of w, and the image of the
// information. The turn's stream is lent on, and the turn advances.
pub(crate) fn taken(t: &FitTable, weight: u64, state: &mut [u64], info: u64, image: u64) -> u64
    requires { (length state.old ≡ coder_words (table_of t.now)) × (turn_of state.old < t.now.depth)
        × (info < weight) × (weight ≤ 2 ^ 15) }
    ensures block { result ≡ info + sel (odd (pending_at state.old (turn_of state.old) ⊕ image)) weight }
    ensures memory { state.new ≡ set (set state.old (1 + turn_of state.old)
        ((pending_at state.old (turn_of state.old) ⊕ image) / 2)) 0
        (next_turn t.now.depth (turn_of state.old)) }
{
    let turn = state[0];
    let at = 1 + (turn as usize);
    let end = at + 1;
    let w = join(&mut state[at..end], image);
    state[0] = next_turn(t.depth as u64, turn);
    info + select(weight, w)
}

// A step on a table whose rows are lent beside it, so that a caller need not copy them into one. With another count
// than fifteen, 12 applies. The coded block is information and parity.
pub fn code_lent(t: Table, rows: &[u64], state: &mut [u64], info: u16) -> Result<u16, Refusal>
    ensures { Codes (lent t rows.now) state.old info result state.new }
{
    let block = info as u64;
    let fit = FitTable::of(t, rows)?;
    fault(&fit, state, block)?;
    let image = combination(fit.rows, fit.symbols - 1, block);
    Ok(taken(&fit, fit.weight(), state, block, image) as u16)
}

pub fn code(t: Table, state: &mut [u64], info: u16) -> Result<u16, Refusal>
    ensures { Codes t state.old info result state.new }
{
    code_lent(t, &t.rows, state, info)
}
