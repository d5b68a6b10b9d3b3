// Filling a test load.
ghost use Rattle.export.specs.Numbers.{table_of};
ghost use Rattle.export.specs.Promises.{LoadsBy};

use crate::answer::refused;
use crate::table::table_of;
use load::fill::fill_load;

#[unsafe(no_mangle)]
pub extern "C" fn burst_load(table: &[u64; 18], seed: u32, blocks: &mut [u16]) -> u64
    ensures { LoadsBy (table_of table.now) seed blocks.old result blocks.new }
{
    refused(fill_load(table_of(table), seed, blocks))
}
