// Writing a table: 02, CR 2. The bytes are those of 01's format, with the rows ascending.
ghost use Rattle.std.specs.Prelude.{◌≡◌, ◌∷◌, ◌+◌, ◌-◌, ◌*◌, ◌≤◌, length};
ghost use Rattle.std.proofs.lemmas.List.Edits.{sets};
ghost use Rattle.tables.specs.Written.{bytes_of, sizes_record, row_records};
ghost use Rattle.tables.specs.Writing.{ascending, unsound_error, write_number, write_by, write_buffer, Writes};

use crate::judge::{Clash, Unsound, judge};
use crate::table::Table;

#[derive(Clone, Copy, Debug, PartialEq, Eq)]
pub enum WriteError {
    // The table is not fit: 12.
    Unfit,
    // The first clash, as in reading: 10.
    Unsuitable(Clash),
    // The buffer is shorter than the bytes of the table: 16.
    NoRoom,
}

// The refusal's number.
impl From<WriteError> for u64 {
    ghost from_gives = { λ error number. number ≡ write_number error };

    fn from(error: WriteError) -> u64 {
        match error {
            WriteError::Unfit => 12,
            WriteError::Unsuitable(_) => 10,
            WriteError::NoRoom => 16,
        }
    }
}

impl From<Unsound> for WriteError {
    ghost from_gives = { λ u e. e ≡ unsound_error u };

    fn from(unsound: Unsound) -> WriteError {
        match unsound {
            Unsound::NotFit => WriteError::Unfit,
            Unsound::Clashing(clash) => WriteError::Unsuitable(clash),
        }
    }
}

// The sizes record, first.
fn put_sizes(t: Table, out: &mut [u8])
    requires { (t.symbols ≤ 16) × (t.span ≤ 64) × (t.depth ≤ 64) × (4 ≤ length out.old) }
    ensures { out.new ≡ sets out.old 0 (sizes_record t) }
{
    out[0] = 1;
    out[1] = t.symbols as u8;
    out[2] = t.span as u8;
    out[3] = t.depth as u8;
}

// The row record of row j at `at`, the row's low byte first.
fn put_row(out: &mut [u8], at: usize, j: usize, row: u64)
    requires { (at + 10 ≤ length out.old) × (j ≤ 15) }
    ensures { out.new ≡ sets out.old at (2 ∷ j ∷ bytes_of 8 row) }
{
    out[at] = 2;
    out[at + 1] = j as u8;
    out[at + 2..at + 10].copy_from_slice(&row.to_le_bytes());
}

// The row records, ascending, after the sizes record.
fn put_rows(t: Table, out: &mut [u8])
    requires { (1 ≤ t.symbols) × (t.symbols ≤ 16) × (10 * t.symbols ≤ length out.old + 5) }
    ensures { out.new ≡ sets out.old 4 (row_records t (ascending 1 (t.symbols - 1))) }
{
    for j in 1..t.symbols {
        put_row(out, 10 * j - 6, j, t.rows[j - 1]);
    }
}

// All records of a sound table, or 16 if there is no room for them.
fn put(t: Table, out: &mut [u8]) -> Result<usize, WriteError>
    requires { (1 ≤ t.symbols) × (t.symbols ≤ 16) × (t.span ≤ 64) × (t.depth ≤ 64) }
    ensures answer { result ≡ write_by t (length out.old) (Ok tt) }
    ensures buffer { out.new ≡ write_buffer result t out.old }
{
    let length = 10 * t.symbols - 5;
    if out.len() < length {
        return Err(WriteError::NoRoom);
    }
    put_sizes(t, out);
    put_rows(t, out);
    out[length - 1] = 0;
    Ok(length)
}

// Judges the table, and writes it if it is sound and the buffer has room for it.
pub fn write(t: Table, out: &mut [u8]) -> Result<usize, WriteError>
    ensures { Writes t out.old result out.new }
{
    judge(t)?;
    put(t, out)
}
