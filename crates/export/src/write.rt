// Writing a table.
ghost use Rattle.export.specs.Numbers.{table_of};
ghost use Rattle.export.specs.Promises.{WritesBy};

use crate::table::table_of;
use crate::written::BurstWritten;
use tables::write::write;

#[unsafe(no_mangle)]
pub extern "C" fn burst_write(table: &[u64; 18], bytes: &mut [u8]) -> BurstWritten
    ensures { WritesBy (table_of table.now) bytes.old result bytes.new }
{
    write(table_of(table), bytes).into()
}
