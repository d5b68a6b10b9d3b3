// A coder's step.
ghost use Rattle.std.specs.Prelude.{◌≡◌, length, drop};
ghost use Rattle.tables.specs.Lent.{with_rows};
ghost use Rattle.export.specs.Numbers.{table_of};
ghost use Rattle.link.specs.Coder.{Codes};
ghost use Rattle.export.specs.Promises.{CodesBy};

use crate::coded::BurstCoded;
use crate::table::sizes_of;
use link::code::code_lent;
use link::refusal::Refusal;
use tables::table::Table;

// The rows are lent where they stand.
fn step(t: Table, numbers: &[u64], words: &mut [u64], info: u16) -> Result<u16, Refusal>
    requires { length numbers.now ≡ 18 }
    ensures { Codes (with_rows t (drop 3 numbers.now)) words.old info result words.new }
{
    code_lent(t, &numbers[3..18], words, info)
}

#[unsafe(no_mangle)]
pub extern "C" fn burst_code(table: &[u64; 18], words: &mut [u64], info: u16) -> BurstCoded
    ensures { CodesBy (table_of table.now) words.old info result words.new }
{
    step(sizes_of(table), table, words, info).into()
}
