// A table that refusal 12 does not apply to, its rows lent: what that says of its sizes is known wherever it goes. The
// memory stays beside it, a lent slice as 01 has it, since contracts speak of its words before and after: so its length
// stands in them (`Ready`, or an equation where 14 is still to be tested).
ghost use Rattle.std.specs.Prelude.{◌≡◌, ◌≤◌, true, length};
ghost use Rattle.tables.specs.Table.{table, fit};

use crate::refusal::Refusal;
use span::bits::{mask, one_at};
use tables::table::{Table, lent_fits};

#[derive(Clone, Copy)]
pub(crate) struct FitTable<'a> {
    pub symbols: usize,
    pub span: usize,
    pub depth: usize,
    pub rows: &'a [u64],
    ghost in_range: { (2 ≤ symbols) × (symbols ≤ 16) × (2 ≤ span) × (span ≤ 64) × (1 ≤ depth) × (depth ≤ 64) },
    ghost is_fit: { fit (table symbols span depth rows.now) ≡ true },
    ghost fifteen: { length rows.now ≡ 15 },
}

impl<'a> FitTable<'a> {
    ghost use Rattle.std.specs.Prelude.{false, ◌-◌, ◌^◌, MatchResult};
    ghost use Rattle.tables.specs.Lent.{lent};
    ghost use Rattle.link.specs.Memory.{coder_words, decoder_words, delay_of};
    ghost use Rattle.link.specs.Step.{information};
    ghost use Rattle.link.specs.Fit.{table_of};

    // Refused by 12 also with another count of rows than fifteen.
    pub(crate) fn of(t: Table, rows: &'a [u64]) -> Result<FitTable<'a>, Refusal>
        ensures { MatchResult result (λ f. table_of f ≡ lent t rows.now)
            (λ e. (e ≡ Refusal.UnfitTable) × (fit (lent t rows.now) ≡ false)) }
    {
        if !lent_fits(t, rows) {
            return Err(Refusal::UnfitTable);
        }
        Ok(FitTable {
            symbols: t.symbols,
            span: t.span,
            depth: t.depth,
            rows,
        })
    }

    // How many words a coder's memory has.
    pub(crate) fn coder_words(&self) -> usize
        ensures { result ≡ coder_words (table_of self.now) }
    {
        1 + self.depth
    }

    // How many words a decoder's memory has.
    pub(crate) fn decoder_words(&self) -> usize
        ensures { result ≡ decoder_words (table_of self.now) }
    {
        2 + self.depth * (self.span + 1)
    }

    // The weight of a block's parity symbol.
    pub(crate) fn weight(&self) -> u64
        ensures { result ≡ 2 ^ (self.now.symbols - 1) }
    {
        one_at(self.symbols - 1)
    }

    // The weight of the raw term in a register.
    pub(crate) fn top(&self) -> u64
        ensures { result ≡ 2 ^ (self.now.span - 1) }
    {
        one_at(self.span - 1)
    }

    // Where the fill is complete.
    pub(crate) fn delay(&self) -> u64
        ensures { result ≡ delay_of (table_of self.now) }
    {
        (self.depth * (self.span - 1)) as u64
    }

    // The information of a received block: what is below its parity symbol.
    pub(crate) fn information(&self, block: u64) -> u64
        ensures { result ≡ information self.now.symbols block }
    {
        block & mask(self.symbols - 1)
    }
}
