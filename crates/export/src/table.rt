// A table as 18 numbers: n, N, m, and rows 1 to 15.
ghost use Rattle.std.specs.Prelude.{◌≡◌, length, drop};
ghost use Rattle.export.specs.Numbers.{table_of, sizes_of, numbers_of, given_back};

use tables::table::Table;

// The table of the sizes alone, for a step that is lent the rows.
pub(crate) fn sizes_of(numbers: &[u64; 18]) -> Table
    ensures { result ≡ sizes_of numbers.now }
{
    Table {
        symbols: numbers[0] as usize,
        span: numbers[1] as usize,
        depth: numbers[2] as usize,
        rows: [0; 15],
    }
}

#[tactic(auto, unfolding(crate::specs::Numbers::table_of, crate::specs::Numbers::sizes_of))]
pub(crate) fn table_of(numbers: &[u64; 18]) -> Table
    ensures { result ≡ table_of numbers.now }
{
    let mut rows = [0u64; 15];
    rows.copy_from_slice(&numbers[3..18]);
    Table {
        rows,
        ..sizes_of(numbers)
    }
}

#[tactic(auto, unfolding(crate::specs::Numbers::numbers_of))]
fn put_table(t: Table, numbers: &mut [u64; 18])
    ensures { numbers.new ≡ numbers_of t }
{
    numbers[0] = t.symbols as u64;
    numbers[1] = t.span as u64;
    numbers[2] = t.depth as u64;
    numbers[3..].copy_from_slice(&t.rows);
}

// A refusal leaves the lent numbers as they were.
pub(crate) fn give_back<E: Drop>(answer: Result<Table, E>, numbers: &mut [u64; 18])
    ensures { numbers.new ≡ given_back answer numbers.old }
{
    if let Ok(t) = answer {
        put_table(t, numbers);
    }
}
