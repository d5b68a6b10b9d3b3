// The decoder: one step on lent memory, in 01's four lines.
ghost use Rattle.std.specs.Prelude.{◌≡◌, cond, ◌||◌, [], ◌∷◌, ◌++◌, ◌+◌, ◌-◌, ◌/◌, ◌^◌, ◌≤◌, ◌<◌, leb, ltb, length};
ghost use Rattle.std.specs.Prelude.{get_or, take, drop, Ok};
ghost use Rattle.span.specs.Word.{◌⊕◌, odd, sel};
ghost use Rattle.span.specs.Combination.{combination};
ghost use Rattle.tables.specs.Lent.{lent};
ghost use Rattle.tables.specs.Table.{rows_of};
ghost use Rattle.link.specs.Fit.{table_of, Ready};
ghost use Rattle.link.specs.Memory.{turn_of, pending_of, syndrome_of, delayed_of, decoder_words};
ghost use Rattle.link.specs.Step.{found, error_of, kept_of, mark_found, mark_of};
ghost use Rattle.link.specs.Refusals.{some_above, decoder_malformed, decoder_fault, settled};
ghost use Rattle.link.specs.Decoder.{mark_error, advanced, decoder_next, delivery, mark_number, Decodes};

use crate::fit::FitTable;
use crate::refusal::Refusal;
use crate::stream::{next_fill, next_turn, push};
use span::bits::{mask, select};
use span::combine::combination;
use span::dual::together;
use span::eliminate::least_relation;
use tables::table::Table;

#[derive(Clone, Copy)]
pub enum Mark {
    Clean,
    // The error block that was removed.
    Corrected(u16),
    // The same where only the parity was wrong in it: the information stays as it was received.
    Parity(u16),
    Doubtful,
    Held,
}

// 02's number.
impl From<Mark> for u64 {
    ghost from_gives = { λ m k. k ≡ mark_number m };

    fn from(mark: Mark) -> u64 {
        match mark {
            Mark::Clean => 1,
            Mark::Held => 2,
            Mark::Corrected(_) => 3,
            Mark::Doubtful => 4,
            Mark::Parity(_) => 5,
        }
    }
}

impl Mark {
    // The error block that it carries, or 0.
    pub fn error(self) -> u16
        ensures { result ≡ mark_error self }
    {
        match self {
            Mark::Corrected(e) | Mark::Parity(e) => e,
            Mark::Clean | Mark::Doubtful | Mark::Held => 0,
        }
    }
}

#[derive(Clone, Copy)]
pub struct Delivered {
    pub info: u16,
    pub mark: Mark,
}

// The word w of a step, with the received parity added to its bit 0, and the register.
#[derive(Clone, Copy)]
pub(crate) struct Joined {
    pub w: u64,
    pub register: u64,
}

// What a register says: the error, the syndrome word that stays, and the mark.
#[derive(Clone, Copy)]
pub(crate) struct Verdict {
    pub error: u16,
    pub kept: u64,
    pub mark: Mark,
}

// ---- refusals

// Whether one of `count` words is 2^width or more: their ones together are, so no branch is taken for each.
fn some_above(words: &[u64], from: usize, count: usize, width: usize) -> bool
    requires { (from + count ≤ length words.now) × (width ≤ 64) }
    ensures { result ≡ some_above (2 ^ width) words.now from count }
{
    mask(width) < together(&words[from..from + count])
}

// The condition of 14 on the words of the stream that begins at `at`.
fn stream_malformed(t: &FitTable, state: &[u64], at: usize) -> bool
    requires { at + (t.now.span + 1) ≤ length state.now }
    ensures { result ≡ leb (2 ^ (t.now.span - 1)) (get_or state.now at 0)
        || leb (2 ^ (t.now.span - 1)) (get_or state.now (at + 1) 0)
        || some_above (2 ^ (t.now.symbols - 1)) state.now (at + 2) (t.now.span - 1) }
{
    if mask(t.span - 1) < (state[at] | state[at + 1]) {
        return true;
    }
    some_above(state, at + 2, t.span - 1, t.symbols - 1)
}

// The condition of 14: the turn is tested before it is an index.
pub(crate) fn malformed(t: &FitTable, state: &[u64]) -> bool
    requires { length state.now ≡ decoder_words (table_of t.now) }
    ensures { result ≡ decoder_malformed (table_of t.now) state.now }
{
    let turn = state[0];
    if t.depth as u64 <= turn {
        return true;
    }
    if t.delay() < state[1] {
        return true;
    }
    stream_malformed(t, state, 2 + (turn as usize) * (t.span + 1))
}

// Whether one of refusals 13 to 15 applies: the first of them.
fn fault(t: &FitTable, state: &[u64], block: u64) -> Result<(), Refusal>
    ensures { result ≡ settled (decoder_fault (table_of t.now) state.now block) }
{
    if state.len() != t.decoder_words() {
        return Err(Refusal::WrongLength);
    }
    if malformed(t, state) {
        return Err(Refusal::MalformedMemory);
    }
    if mask(t.symbols) < block {
        return Err(Refusal::BlockTooLarge);
    }
    Ok(())
}

// ---- the four lines

// The image of a received block: the rows of its information's ones, and the parity's, which is 1.
fn image(t: &FitTable, received: u64) -> u64
    requires { received < 2 ^ t.now.symbols }
    ensures { result ≡ combination (rows_of (table_of t.now)) received }
{
    let width = t.symbols - 1;
    combination(t.rows, width, received) ^ (received >> (width as u64))
}

// Lines 1 and 2 on the turn's stream, with `top` the weight of the raw term: w is the pending word and the image of the
// received block, so that bit 0 of w is the raw term, which stands above the syndrome word in the register.
pub(crate) fn terms(t: &FitTable, state: &[u64], top: u64, image: u64) -> Joined
    requires { Ready (table_of t.now) state.now × (top ≡ 2 ^ (t.now.span - 1)) }
    ensures w { result.w ≡ pending_of (table_of t.now) state.now (turn_of state.now) ⊕ image }
    ensures register { result.register ≡ syndrome_of (table_of t.now) state.now (turn_of state.now)
        + sel (odd result.w) top }
{
    let at = 2 + (state[0] as usize) * (t.span + 1);
    let w = state[at] ^ image;
    Joined {
        w,
        register: state[at + 1] + select(top, w),
    }
}

// The rows of the code, the parity's after them, and the register last.
pub(crate) fn error_words(t: &FitTable, x: u64) -> [u64; 32]
    ensures { take (t.now.symbols + 1) result ≡ rows_of (table_of t.now) ++ (x ∷ []) }
{
    let n = t.symbols;
    let mut words = [0u64; 32];
    words[..n - 1].copy_from_slice(&t.rows[..n - 1]);
    words[n - 1] = 1;
    words[n] = x;
    words
}

// Line 3: the least error block whose image is the register. The least relation that ends in the register has its
// coefficients below.
fn least_error(t: &FitTable, x: u64) -> Option<u64>
    ensures { result ≡ found (rows_of (table_of t.now)) x }
{
    let n = t.symbols;
    let words = error_words(t, x);
    let relation = least_relation(&words, n + 1, n);
    if let Some(c) = relation {
        return Some(c - (1 << (n as u64)));
    }
    None
}

// The mark of an error block that was found, with the weight of the parity.
fn mark_found(e: u64, weight: u64) -> Mark
    requires { e < 2 ^ 16 }
    ensures { result ≡ mark_found weight e }
{
    if e == 0 {
        return Mark::Clean;
    }
    if e == weight {
        return Mark::Parity(e as u16);
    }
    Mark::Corrected(e as u16)
}

// Line 3 and the mark, once the error is found or missing.
pub(crate) fn judged(found: Option<u64>, x: u64, weight: u64) -> Verdict
    requires { error_of found < 2 ^ 16 }
    ensures error { result.error ≡ error_of found }
    ensures kept { result.kept ≡ kept_of found x }
    ensures mark { result.mark ≡ mark_of weight found x }
{
    if let Some(e) = found {
        return Verdict {
            error: e as u16,
            kept: 0,
            mark: mark_found(e, weight),
        };
    }
    let kept = x >> 1;
    if x % 2 == 1 {
        return Verdict {
            error: 0,
            kept,
            mark: Mark::Doubtful,
        };
    }
    Verdict {
        error: 0,
        kept,
        mark: Mark::Held,
    }
}

// A register of 0 is the image of 0: nothing is eliminated then.
fn explain(t: &FitTable, x: u64) -> Option<u64>
    ensures { result ≡ found (rows_of (table_of t.now)) x }
{
    if x == 0 {
        return Some(0);
    }
    least_error(t, x)
}

// ---- the memory

// The turn's stream after a step: w halved, the syndrome word that stays, and the delayed blocks, of which the oldest
// is handed back.
fn advance(part: &mut [u64], w: u64, kept: u64, youngest: u64) -> u64
    requires { 3 ≤ length part.old }
    ensures oldest { result ≡ get_or part.old 2 0 }
    ensures part { part.new ≡ w / 2 ∷ kept ∷ (drop 3 part.old ++ (youngest ∷ [])) }
{
    let oldest = part[2];
    part[0] = w >> 1;
    part[1] = kept;
    push(part, 2, youngest);
    oldest
}

// The memory after a step that no refusal applies to: the turn's stream is lent on, and fill and turn advance. The
// delayed block that leaves is handed back.
pub(crate) fn keep(t: &FitTable, state: &mut [u64], w: u64, kept: u64, youngest: u64) -> u64
    requires { Ready (table_of t.now) state.old }
    ensures oldest { result ≡ delayed_of (table_of t.now) state.old (turn_of state.old) 0 }
    ensures memory { state.new ≡ advanced t.now.span t.now.depth state.old (w / 2) kept youngest }
{
    let turn = state[0];
    let fill = state[1];
    let at = 2 + (turn as usize) * (t.span + 1);
    let end = at + (t.span + 1);
    let oldest = advance(&mut state[at..end], w, kept, youngest);
    state[1] = next_fill(t.delay(), fill);
    state[0] = next_turn(t.depth as u64, turn);
    oldest
}

// A step that no refusal applies to.
fn taken(t: &FitTable, state: &mut [u64], received: u64) -> Option<Delivered>
    requires { decoder_fault (table_of t.now) state.old received ≡ 0 }
    ensures answer { Ok result ≡ delivery (table_of t.now) state.old received }
    ensures memory { state.new ≡ decoder_next (table_of t.now) state.old received }
{
    let fill = state[1];
    let x = terms(t, state, t.top(), image(t, received));
    let v = judged(explain(t, x.register), x.register, t.weight());
    let error = v.error as u64;
    let mark = v.mark;
    let oldest = keep(t, state, x.w, v.kept, t.information(received));
    if fill < t.delay() {
        return None;
    }
    Some(Delivered {
        info: (oldest ^ t.information(error)) as u16,
        mark,
    })
}

// A step on a table whose rows are lent beside it, so that a caller need not copy them into one. With another count
// than fifteen, 12 applies. None is "nothing yet".
pub fn decode_lent(
    t: Table,
    rows: &[u64],
    state: &mut [u64],
    received: u16,
) -> Result<Option<Delivered>, Refusal>
    ensures { Decodes (lent t rows.now) state.old received result state.new }
{
    let block = received as u64;
    let fit = FitTable::of(t, rows)?;
    fault(&fit, state, block)?;
    Ok(taken(&fit, state, block))
}

pub fn decode(t: Table, state: &mut [u64], received: u16) -> Result<Option<Delivered>, Refusal>
    ensures { Decodes t state.old received result state.new }
{
    decode_lent(t, &t.rows, state, received)
}
