// The made tables: Berlekamp and Preparata's, from a triangle of bits.
ghost use Rattle.std.specs.Prelude.{◌≡◌, ◌++◌, ◌-◌, ◌≤◌, ◌<◌, replicate};
ghost use Rattle.tables.specs.Made.{columns, made_row, made_rows, make_number, Makes};

use crate::table::{Table, sizes_fit};
use span::bits::{select, shift};

// Columns 2 to 16 of the triangle, place j at bit j − 1.
const COLUMNS: [u64; 15] = [
    1, 3, 7, 13, 17, 35, 71, 237, 433, 851, 1687, 2365, 5873, 9155, 26183,
];

#[derive(Clone, Copy, Debug, PartialEq, Eq)]
pub enum MakeError {
    // n or m is out of range.
    OutOfRange,
}

// The refusal's number, 11.
impl From<MakeError> for u64 {
    ghost from_gives = { λ error number. number ≡ make_number error };

    fn from(error: MakeError) -> u64 {
        match error {
            MakeError::OutOfRange => 11,
        }
    }
}

// Row j of the table for n: bit n − j, and bit n + k − 1 for each column k that has a one at place j.
fn made_row(n: usize, j: usize) -> u64
    requires { (1 ≤ j) × (j < n) × (n ≤ 16) }
    ensures { result ≡ made_row columns n j }
{
    let mut row = shift(1, n - j, 64);
    for i in 1..n {
        row += select(shift(1, n + i, 64), COLUMNS[i - 1] >> (j - 1));
    }
    row
}

fn made_rows(n: usize) -> [u64; 15]
    requires { (2 ≤ n) × (n ≤ 16) }
    ensures { result ≡ made_rows columns n (n - 1) ++ replicate (16 - n) 0 }
{
    let mut rows = [0u64; 15];
    for i in 0..n - 1 {
        rows[i] = made_row(n, i + 1);
    }
    rows
}

pub fn make(symbols: usize, depth: usize) -> Result<Table, MakeError>
    ensures { Makes symbols depth result }
{
    if !sizes_fit(symbols, 2, depth) {
        return Err(MakeError::OutOfRange);
    }
    Ok(Table {
        symbols,
        span: 2 * symbols,
        depth,
        rows: made_rows(symbols),
    })
}
