// The decoder by the batch. 12 and 13 are tested once. Blocks are taken first as long as the register is 0, which needs
// no basis of the rows; the rest, from another register or a refused block on, is judged by the dual basis. Each of the
// two makes its tables for images once, and tests a stream's words at its first block.
ghost use Rattle.std.specs.Prelude.{◌≡◌, ◌⊎◌, ℕ, true, Some, None, cond, ◌&&◌, ◌||◌, ◌-◌, ◌/◌, ◌^◌, ◌<◌, ltb, length};
ghost use Rattle.std.specs.Prelude.{min};
ghost use Rattle.span.specs.Word.{◌⊕◌};
ghost use Rattle.span.specs.Combination.{counted};
ghost use Rattle.span.specs.Elimination.{basis_of};
ghost use Rattle.span.specs.Dual.{dual, together};
ghost use Rattle.tables.specs.Lent.{with_rows, lent};
ghost use Rattle.tables.specs.Table.{rows_of, fit};
ghost use Rattle.link.specs.declared.decode.Verdict.{Verdict};
ghost use Rattle.link.specs.Fit.{table_of, Ready};
ghost use Rattle.link.specs.Memory.{turn_of, fill_of, delay_of, delayed_of, decoder_words};
ghost use Rattle.link.specs.Refusals.{decoder_malformed};
ghost use Rattle.link.specs.Step.{information};
ghost use Rattle.link.specs.Decoder.{advanced, mark_number};
ghost use Rattle.link.specs.Batch.{decode_entry, decode_batch, Judges, Fills, FillsPart, Reached};

use crate::decode::{Mark, Verdict, error_words, judged, keep, malformed, terms};
use crate::fit::FitTable;
use span::bits::mask;
use span::dual::dual_basis;
use span::eliminate::Basis;
use span::lookup::{look_up, lookup_of};
use tables::table::Table;

// What the register 0 says: it is the image of 0.
const CLEAN: Verdict = Verdict {
    error: 0,
    kept: 0,
    mark: Mark::Clean,
};

// Whether 14 applies to block i of a batch, once 13 is settled and the blocks before were taken. A stream is looked at at
// its first block only: a step that is taken keeps it well-formed.
fn first_malformed(t: &FitTable, i: usize, state: &[u64]) -> bool
    requires { length state.now ≡ decoder_words (table_of t.now) }
    ensures { result ≡ (ltb i t.now.depth && decoder_malformed (table_of t.now) state.now) }
{
    if i < t.depth {
        return malformed(t, state);
    }
    false
}

// Whether 14 or 15 applies to block i, so that a batch ends before it: `most` is the largest block.
fn declines(t: &FitTable, i: usize, most: u64, state: &[u64], received: u64) -> bool
    requires { length state.now ≡ decoder_words (table_of t.now) }
    ensures { result
        ≡ (ltb i t.now.depth && decoder_malformed (table_of t.now) state.now) || ltb most received }
{
    if first_malformed(t, i, state) {
        return true;
    }
    most < received
}

// The entry of a record, a number as 02 and C have it: the mark's above the information. 0 is nothing yet.
fn entry(mark: Mark, info: u64) -> u32
    requires { info < 2 ^ 16 }
    ensures { result ≡ decode_entry (mark_number mark) info }
{
    (u64::from(mark) * 65536 + info) as u32
}

// A step that no refusal applies to, once the register is judged: w, and what the register says. As a call in each of the
// two loops it took 6 to 7 ns more a block.
#[inline(always)]
fn take_block(t: &FitTable, state: &mut [u64], w: u64, v: Verdict, received: u64) -> u32
    requires { Ready (table_of t.now) state.old }
    ensures entry { result ≡ cond (ltb (fill_of state.old) (delay_of (table_of t.now))) (decode_entry 0 0)
        (decode_entry (mark_number v.mark)
        (delayed_of (table_of t.now) state.old (turn_of state.old) 0 ⊕ information t.now.symbols v.error)) }
    ensures memory { state.new
        ≡ advanced t.now.span t.now.depth state.old (w / 2) v.kept (information t.now.symbols received) }
{
    let fill = state[1];
    let error = v.error as u64;
    let mark = v.mark;
    let oldest = keep(t, state, w, v.kept, t.information(received));
    if fill < t.delay() {
        return 0;
    }
    entry(mark, oldest ^ t.information(error))
}

// The blocks of a batch, once 12 and 13 are settled. `judge` says what a register says; where it says nothing the batch
// stops, before that block.
fn fill_by<J: Fn(u64) -> Option<Verdict>>(
    t: &FitTable,
    state: &mut [u64],
    blocks: &[u16],
    out: &mut [u32],
    judge: J,
) -> usize
    requires size { length state.old ≡ decoder_words (table_of t.now) }
    requires callable { J.IsAlwaysCallable judge }
    requires judges { (x : ℕ) (v : Verdict) → J.post judge x (Some v) → Judges (table_of t.now) x v }
    ensures came { Reached (decode_batch (table_of t.now)) state.old blocks.now out.old result state.new out.new
        × (length state.new ≡ length state.old) }
    ensures ended { Fills (decode_batch (table_of t.now) (length out.old) state.old blocks.now) out.old result
        state.new out.new ⊎ ((x : ℕ) × J.post judge x None) }
{
    let words = error_words(t, 0);
    let tables = lookup_of(&words, t.symbols);
    let most = mask(t.symbols);
    let top = t.top();
    let end = blocks.len().min(out.len());
    for i in 0..end {
        let received = blocks[i] as u64;
        if declines(t, i, most, state, received) {
            return i;
        }
        let x = terms(t, state, top, look_up(&tables, received));
        let Some(v) = judge(x.register) else {
            return i;
        };
        out[i] = take_block(t, state, x.w, v, received);
    }
    end
}

// What the dual basis of the code's rows says of a register.
fn judged_by(t: &FitTable, basis: &Basis, ones: u64, x: u64) -> Verdict
    requires { (basis.now ≡ dual (basis_of (rows_of (table_of t.now))))
        × (ones ≡ together basis.now.checks (min basis.now.size 32)) }
    ensures { Judges (table_of t.now) x result }
{
    judged(basis.least(ones, x), x, t.weight())
}

// Each register judged by the dual basis of the rows.
fn fill_judged(t: &FitTable, state: &mut [u64], blocks: &[u16], out: &mut [u32]) -> usize
    requires { length state.old ≡ decoder_words (table_of t.now) }
    ensures { Fills (decode_batch (table_of t.now) (length out.old) state.old blocks.now) out.old result state.new
        out.new }
{
    let words = error_words(t, 0);
    let basis = dual_basis(&words, t.symbols);
    let ones = basis.ones();
    fill_by(
        t,
        state,
        blocks,
        out,
        |x| Some(judged_by(t, &basis, ones, x)),
    )
}

// Once 12 and 13 are settled. As far as registers are 0 no basis is made; what is left is judged by it.
fn fill(t: &FitTable, state: &mut [u64], blocks: &[u16], out: &mut [u32]) -> usize
    requires { length state.old ≡ decoder_words (table_of t.now) }
    ensures { Fills (decode_batch (table_of t.now) (length out.old) state.old blocks.now) out.old result state.new
        out.new }
{
    let i = fill_by(
        t,
        state,
        blocks,
        out,
        |x| if x == 0 { Some(CLEAN) } else { None },
    );
    if blocks.len().min(out.len()) <= i {
        return i;
    }
    i + fill_judged(t, state, &blocks[i..], &mut out[i..])
}

// Takes the received blocks one after another, with their entries into `out`, and answers how many: it ends where no
// block is left, where `out` is full, and before a block that a single call would refuse. The rows are lent beside the
// table, as for a step.
pub fn fill_decoded(
    t: Table,
    rows: &[u64],
    state: &mut [u64],
    blocks: &[u16],
    out: &mut [u32],
) -> usize
    ensures { Fills (decode_batch (lent t rows.now) (length out.old) state.old
        blocks.now) out.old result state.new out.new }
{
    let Ok(fit) = FitTable::of(t, rows) else {
        return 0;
    };
    if state.len() != fit.decoder_words() {
        return 0;
    }
    fill(&fit, state, blocks, out)
}

// The part of `out` that is filled. What the rest holds is not promised here; `fill_decoded` promises it.
pub fn decode_batch<'a>(
    t: Table,
    state: &mut [u64],
    blocks: &[u16],
    out: &'a mut [u32],
) -> &'a mut [u32]
    ensures { FillsPart (decode_batch t (length out.old) state.old blocks.now) result.now
        state.new }
{
    let count = fill_decoded(t, &t.rows, state, blocks, out);
    &mut out[..count]
}
