// Reading a table.
ghost use Rattle.export.specs.Promises.{Reads};

use crate::reading::BurstReading;
use crate::table::give_back;
use tables::read::read;

#[unsafe(no_mangle)]
pub extern "C" fn burst_read(bytes: &[u8], table: &mut [u64; 18]) -> BurstReading
    ensures { Reads bytes.now result table.old table.new }
{
    let answer = read(bytes);
    give_back(answer, table);
    answer.into()
}
