// A decoder's step.
ghost use Rattle.std.specs.Prelude.{◌≡◌, length, drop};
ghost use Rattle.tables.specs.Lent.{with_rows};
ghost use Rattle.export.specs.Numbers.{table_of};
ghost use Rattle.link.specs.Decoder.{Decodes};
ghost use Rattle.export.specs.Promises.{DecodesBy};

use crate::decoded::BurstDecoded;
use crate::table::sizes_of;
use link::decode::{Delivered, decode_lent};
use link::refusal::Refusal;
use tables::table::Table;

// The rows are lent where they stand.
fn step(
    t: Table,
    numbers: &[u64],
    words: &mut [u64],
    received: u16,
) -> Result<Option<Delivered>, Refusal>
    requires { length numbers.now ≡ 18 }
    ensures { Decodes (with_rows t (drop 3 numbers.now)) words.old received result words.new }
{
    decode_lent(t, &numbers[3..18], words, received)
}

#[unsafe(no_mangle)]
pub extern "C" fn burst_decode(table: &[u64; 18], words: &mut [u64], received: u16) -> BurstDecoded
    ensures { DecodesBy (table_of table.now) words.old received result words.new }
{
    step(sizes_of(table), table, words, received).into()
}
