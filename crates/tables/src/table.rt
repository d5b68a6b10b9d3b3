// The table by value, and when it is fit. Row j stands at rows[j − 1]; row n, the parity's, is 1 always and is not
// stored.
ghost use Rattle.std.specs.Prelude.{◌≡◌};
ghost use Rattle.tables.specs.Table.{table, zero_table, sizes_fit, fit};
ghost use Rattle.tables.specs.Lent.{lent};

use span::bits::mask;
use span::dual::together;

// Fifteen rows with n beside them, since nothing here is on a heap.
#[derive(Clone, Copy)]
pub struct Table {
    pub symbols: usize,
    pub span: usize,
    pub depth: usize,
    pub rows: [u64; 15],
}

// The table that a reading begins from; refusal 12 applies to it.
pub fn zero_table() -> Table
    ensures { result ≡ zero_table }
{
    Table {
        symbols: 0,
        span: 0,
        depth: 0,
        rows: [0; 15],
    }
}

// Whether n, N and m are in range.
pub(crate) fn sizes_fit(symbols: usize, span: usize, depth: usize) -> bool
    ensures { result ≡ sizes_fit symbols span depth }
{
    (2 <= symbols) & (symbols <= 16) & (2 <= span) & (span <= 64) & (1 <= depth) & (depth <= 64)
}

// Whether the table of these sizes and rows is fit: the condition of refusal 12 does not hold. The rows are lent, since
// each step asks it, and compared once, all their ones together; of fewer than n − 1, those that are there are looked
// at. The sizes come one by one, and no table: the rows may stand elsewhere (`lent_fits`).
pub fn is_fit(symbols: usize, span: usize, depth: usize, rows: &[u64]) -> bool
    ensures { result ≡ fit (table symbols span depth rows.now) }
{
    if !sizes_fit(symbols, span, depth) {
        return false;
    }
    let end = rows.len().min(symbols - 1);
    together(&rows[..end]) <= mask(span)
}

// Whether a table whose rows are lent beside it is fit. With another count than fifteen it is not.
pub fn lent_fits(t: Table, rows: &[u64]) -> bool
    ensures { result ≡ fit (lent t rows.now) }
{
    (rows.len() == 15) & is_fit(t.symbols, t.span, t.depth, rows)
}
