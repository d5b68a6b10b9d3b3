// The coder by the batch: what holds of all its blocks is tested once, and images are looked up in tables that are made
// once.
ghost use Rattle.std.specs.Prelude.{◌≡◌, true, ◌+◌, length};
ghost use Rattle.tables.specs.Lent.{lent};
ghost use Rattle.link.specs.Fit.{table_of};
ghost use Rattle.link.specs.Memory.{coder_words};
ghost use Rattle.link.specs.Batch.{code_batch, Fills, FillsPart};

use crate::code::{malformed, taken};
use crate::fit::FitTable;
use span::bits::mask;
use span::lookup::{look_up, lookup_of};
use tables::table::Table;

// Once 12 and 13 are settled: 14 and 15 of each block, and its step.
fn fill(t: &FitTable, state: &mut [u64], infos: &[u16], out: &mut [u32]) -> usize
    requires { length state.old ≡ coder_words (table_of t.now) }
    ensures { Fills (code_batch (table_of t.now) (length out.old) state.old infos.now) out.old result state.new
        out.new }
{
    let width = t.symbols - 1;
    let tables = lookup_of(t.rows, width);
    let most = mask(width);
    let weight = t.weight();
    let end = infos.len().min(out.len());
    for i in 0..end {
        let info = infos[i] as u64;
        if malformed(t, state) {
            return i;
        }
        if most < info {
            return i;
        }
        let image = look_up(&tables, info);
        out[i] = taken(t, weight, state, info, image) as u32;
    }
    end
}

// Codes the blocks one after another into `out`, and answers how many: it ends where no block is left, where `out` is
// full, and before a block that a single call would refuse. The rows are lent beside the table, as for a step.
pub fn fill_coded(
    t: Table,
    rows: &[u64],
    state: &mut [u64],
    infos: &[u16],
    out: &mut [u32],
) -> usize
    ensures { Fills (code_batch (lent t rows.now) (length out.old) state.old
        infos.now) out.old result state.new out.new }
{
    let Ok(fit) = FitTable::of(t, rows) else {
        return 0;
    };
    if state.len() != fit.coder_words() {
        return 0;
    }
    fill(&fit, state, infos, out)
}

// The part of `out` that is filled. What the rest holds is not promised here; `fill_coded` promises it.
pub fn code_batch<'a>(
    t: Table,
    state: &mut [u64],
    infos: &[u16],
    out: &'a mut [u32],
) -> &'a mut [u32]
    ensures { FillsPart (code_batch t (length out.old) state.old infos.now) result.now
        state.new }
{
    let count = fill_coded(t, &t.rows, state, infos, out);
    &mut out[..count]
}
