// Reading a table: 01, "Table bytes" and refusals 1 to 10. The fault of a record stands apart from what a sound record
// does.
ghost use Rattle.std.specs.Prelude.{◌≡◌, ◌≢◌, true, cond, not, ◌+◌, ◌-◌, ◌^◌, ◌≤◌, ◌<◌, leb, ltb, eqb, length, get_or};
ghost use Rattle.std.specs.Prelude.{drop};
ghost use Rattle.tables.specs.Table.{sizes_fit, fit};
ghost use Rattle.tables.specs.Format.{kind, kind_of, kind_number, size, row_word, all_given, unavailable, fault};
ghost use Rattle.tables.specs.Format.{fault_number, header, checked, place, after, parsed};
ghost use Rattle.tables.specs.Reading.{read_number, read_parse, Read};

use crate::judge::{Clash, first_clash};
use crate::table::{Table, sizes_fit, zero_table};
use span::bits::mask;
use std::array;

#[derive(Clone, Copy, Debug, PartialEq, Eq)]
pub enum Fault {
    // 1: the bytes end where a kind byte is due.
    Ended,
    // 2: the kind is not 0, 1 or 2.
    Unknown,
    // 3: the body is cut short.
    Cut,
    // 4: sizes are not the first record, or come again.
    Misplaced,
    // 5: n, N or m is out of range.
    SizesOut,
    // 6: the row number is not 1 to n − 1, or was given.
    Misnumbered,
    // 7: the row has a one at bit N or above.
    TooLong,
    // 8: the end comes before every row was given.
    Missing,
    // 9: bytes follow the end.
    Followed,
}

// The refusal's number.
impl From<Fault> for u64 {
    ghost from_gives = { λ fault number. number ≡ fault_number fault };

    fn from(fault: Fault) -> u64 {
        match fault {
            Fault::Ended => 1,
            Fault::Unknown => 2,
            Fault::Cut => 3,
            Fault::Misplaced => 4,
            Fault::SizesOut => 5,
            Fault::Misnumbered => 6,
            Fault::TooLong => 7,
            Fault::Missing => 8,
            Fault::Followed => 9,
        }
    }
}

#[derive(Clone, Copy, Debug, PartialEq, Eq)]
pub enum ReadError {
    // 1 to 9, and the place.
    Refused(Fault, usize),
    // The first clash: 10.
    Unsuitable(Clash),
}

// The refusal's number.
impl From<ReadError> for u64 {
    ghost from_gives = { λ error number. number ≡ read_number error };

    fn from(error: ReadError) -> u64 {
        match error {
            ReadError::Refused(fault, _) => fault.into(),
            ReadError::Unsuitable(_) => 10,
        }
    }
}

// What the kind byte of a record says.
#[derive(Clone, Copy)]
enum Kind {
    End,
    Sizes,
    Row,
}

impl Kind {
    fn of(byte: usize) -> Result<Kind, Fault>
        ensures { result ≡ checked (cond (ltb 2 byte) 2 0) (kind_of byte) }
    {
        match byte {
            0 => Ok(Kind::End),
            1 => Ok(Kind::Sizes),
            2 => Ok(Kind::Row),
            _ => Err(Fault::Unknown),
        }
    }

    // The length of such a record, its kind byte included.
    fn size(self) -> usize
        ensures { result ≡ size (kind_number self) }
    {
        match self {
            Kind::End => 1,
            Kind::Sizes => 4,
            Kind::Row => 10,
        }
    }
}

// How far a reading came: the table so far, without symbols before the sizes, and which rows were given, row j at
// given[j − 1].
// The bounds on n and N stand in contracts, and are no ghost fields: `progress` of specs/Format is of any table, and a
// struct with such fields can be built only where they hold (tried: the definitions of reading do not stand then).
#[derive(Clone, Copy)]
struct Progress {
    table: Table,
    given: [bool; 15],
}

// Byte k of the record that the rest begins, and 0 past the end.
fn byte(rest: &[u8], k: usize) -> usize
    ensures { result ≡ get_or rest.now k 0 }
{
    if k < rest.len() {
        return rest[k] as usize;
    }
    0
}

// The row of a row record, its low byte first. Where the record is cut short, `byte` gives 0 for what is missing.
fn row_word(rest: &[u8]) -> u64
    ensures { result ≡ row_word rest.now }
{
    u64::from_le_bytes(array::from_fn(|i| byte(rest, i + 2) as u8))
}

// The faults that a record of any kind may have; otherwise its kind.
fn header(rest: &[u8], symbols: usize) -> Result<Kind, Fault>
    ensures { result ≡ checked (header (kind rest.now) (length rest.now) symbols) (kind_of (kind rest.now)) }
{
    if rest.is_empty() {
        return Err(Fault::Ended);
    }
    let kind = Kind::of(byte(rest, 0))?;
    if rest.len() < kind.size() {
        return Err(Fault::Cut);
    }
    if misplaced(kind, symbols) {
        return Err(Fault::Misplaced);
    }
    Ok(kind)
}

// Whether a record of this kind comes before the sizes or again: sizes come first, and once.
fn misplaced(kind: Kind, symbols: usize) -> bool
    ensures { result ≡ cond (eqb (kind_number kind) 1) (not (eqb symbols 0)) (eqb symbols 0) }
{
    match kind {
        Kind::Sizes => symbols != 0,
        Kind::End | Kind::Row => symbols == 0,
    }
}

// The other faults of a sizes record.
fn sizes(rest: &[u8]) -> Result<Kind, Fault>
    ensures { result ≡ checked (cond (not (sizes_fit (get_or rest.now 1 0) (get_or rest.now 2 0) (get_or rest.now 3 0)))
        5 0) Kind.Sizes }
{
    if !sizes_fit(byte(rest, 1), byte(rest, 2), byte(rest, 3)) {
        return Err(Fault::SizesOut);
    }
    Ok(Kind::Sizes)
}

// The other faults of a row record: its number is none of 1 to n − 1, or was given; its row is too long.
fn row(rest: &[u8], g: &Progress) -> Result<Kind, Fault>
    requires { (g.now.table.symbols ≤ 16) × (g.now.table.span ≤ 64) }
    ensures { result ≡ checked (cond (unavailable g.now (get_or rest.now 1 0)) 6
        (cond (leb (2 ^ g.now.table.span) (row_word rest.now)) 7 0)) Kind.Row }
{
    let j = byte(rest, 1);
    if (1 <= j) & (j < g.table.symbols) {
        if g.given[j - 1] {
            return Err(Fault::Misnumbered);
        }
        if mask(g.table.span) < row_word(rest) {
            return Err(Fault::TooLong);
        }
        return Ok(Kind::Row);
    }
    Err(Fault::Misnumbered)
}

// The other faults of an end record: not every row was given; bytes follow.
fn end(rest: &[u8], g: &Progress) -> Result<Kind, Fault>
    requires { (1 ≤ g.now.table.symbols) × (g.now.table.symbols ≤ 16) }
    ensures { result ≡ checked (cond (not (all_given g.now.given (g.now.table.symbols - 1))) 8
        (cond (ltb 1 (length rest.now)) 9 0)) Kind.End }
{
    if g.given[..g.table.symbols - 1].contains(&false) {
        return Err(Fault::Missing);
    }
    if 1 < rest.len() {
        return Err(Fault::Followed);
    }
    Ok(Kind::End)
}

// The first refusal of 1 to 9 that applies to the record that the rest begins; otherwise its kind.
fn sound(rest: &[u8], g: &Progress) -> Result<Kind, Fault>
    requires { (g.now.table.symbols ≤ 16) × (g.now.table.span ≤ 64) }
    ensures { result ≡ checked (fault g.now rest.now) (kind_of (kind rest.now)) }
{
    let kind = header(rest, g.table.symbols)?;
    match kind {
        Kind::End => end(rest, g),
        Kind::Sizes => sizes(rest),
        Kind::Row => row(rest, g),
    }
}

// The progress after a sound record that is not the end. It is lent: by value it was copied three times a record.
fn after(rest: &[u8], g: &mut Progress, said: Kind)
    requires { (g.old.table.symbols ≤ 16) × (fault g.old rest.now ≡ 0) × (kind rest.now ≢ 0)
        × (kind rest.now ≡ kind_number said) }
    ensures { g.new ≡ after g.old rest.now }
{
    let j = byte(rest, 1);
    if let Kind::Sizes = said {
        g.table.symbols = j;
        g.table.span = byte(rest, 2);
        g.table.depth = byte(rest, 3);
    } else {
        let i = j - 1;
        g.table.rows[i] = row_word(rest);
        g.given[i] = true;
    }
}

// A refusal of the record at `at`. What follows the end begins after its one byte.
fn refusal(fault: Fault, at: usize) -> ReadError
    requires { at + 1 < 2 ^ 64 }
    ensures { result ≡ ReadError.Refused fault (place (fault_number fault) at) }
{
    let place = match fault {
        Fault::Followed => at + 1,
        _ => at,
    };
    ReadError::Refused(fault, place)
}

// The reading of a table that was parsed.
fn judged(t: Table) -> Result<Table, ReadError>
    requires { fit t ≡ true }
    ensures { result ≡ read_parse (parsed t) }
{
    match first_clash(&t) {
        Some(clash) => Err(ReadError::Unsuitable(clash)),
        None => Ok(t),
    }
}

// The records left to right, and then the judgement. How far a record reaches is told by its kind, and the place of a
// fault is told by its position, so this is a `loop` with the position beside it.
pub fn read(bytes: &[u8]) -> Result<Table, ReadError>
    ensures { Read bytes.now result }
{
    let mut g = Progress {
        table: zero_table(),
        given: [false; 15],
    };
    let mut at = 0;
    loop {
        let rest = &bytes[at..];
        match sound(rest, &g) {
            Err(fault) => return Err(refusal(fault, at)),
            Ok(kind) => {
                if let Kind::End = kind {
                    return judged(g.table);
                }
                after(rest, &mut g, kind);
                at += kind.size();
            }
        }
    }
}
