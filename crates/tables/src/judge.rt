// Judging any table value: not fit, the first clash that shows it unsuitable, or sound.
ghost use Rattle.std.specs.Prelude.{◌≡◌, true, ◌++◌, map, ◌+◌, ◌-◌, ◌≤◌, ◌<◌, length, get_or, take};
ghost use Rattle.span.specs.Word.{shifted};
ghost use Rattle.tables.specs.Table.{code_rows, rows_of, fit};
ghost use Rattle.tables.specs.Clash.{first_clash};
ghost use Rattle.tables.specs.Judging.{judging};

use crate::table::{Table, is_fit};
use span::bits::{mask, shift};
use span::eliminate::least_relation;

// What shows a table unsuitable: a shift l and two error blocks.
#[derive(Clone, Copy, Debug, PartialEq, Eq)]
pub struct Clash {
    pub l: u64,
    pub e0: u64,
    pub e1: u64,
}

#[derive(Clone, Copy)]
pub enum Unsound {
    NotFit,
    // The first clash: the least shift l, then the least error block e0, then the least e1.
    Clashing(Clash),
}

// The shifted rows, then the rows, so that the least relation has the least e0 and then the least e1: each row is fetched
// once. They go into an array of as many words as a search for relations takes, since nothing here is on a heap; it is
// lent, so that it is made once for all shifts.
fn clash_words(rows: &[u64], span: usize, l: usize, words: &mut [u64; 32])
    requires { (length rows.now ≤ 16) × (span ≤ 64) }
    ensures { take (length rows.now + length rows.now) words.new ≡ map (shifted span l) rows.now ++ rows.now }
{
    let n = rows.len();
    for (i, row) in rows.iter().enumerate() {
        words[i] = shift(*row, l, span);
        words[n + i] = *row;
    }
}

// The least clash of the first shift that has one, of the code's n rows.
fn search(rows: &[u64], span: usize) -> Option<Clash>
    requires { (length rows.now ≤ 16) × (span ≤ 64) }
    ensures { result ≡ first_clash span rows.now }
{
    let n = rows.len();
    let mut words = [0u64; 32];
    for l in 1..span {
        clash_words(rows, span, l, &mut words);
        if let Some(c) = least_relation(&words, n + n, n) {
            return Some(Clash {
                l: l as u64,
                e0: c >> (n as u64),
                e1: c & mask(n),
            });
        }
    }
    None
}

// The first clash of a fit table, which is lent, so that its rows alone are copied. The parity's row, 1, stands behind
// the stored ones.
pub(crate) fn first_clash(t: &Table) -> Option<Clash>
    requires { fit t.now ≡ true }
    ensures { result ≡ first_clash t.now.span (rows_of t.now) }
{
    let n = t.symbols;
    let mut rows = [1; 16];
    rows[..n - 1].copy_from_slice(&t.rows[..n - 1]);
    search(&rows[..n], t.span)
}

pub(crate) fn judge(t: Table) -> Result<(), Unsound>
    ensures { result ≡ judging t }
{
    if !is_fit(t.symbols, t.span, t.depth, &t.rows) {
        return Err(Unsound::NotFit);
    }
    match first_clash(&t) {
        Some(clash) => Err(Unsound::Clashing(clash)),
        None => Ok(()),
    }
}
