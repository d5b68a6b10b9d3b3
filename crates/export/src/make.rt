// Making a table.
ghost use Rattle.export.specs.Promises.{MakesTable};

use crate::answer::refused;
use crate::table::give_back;
use tables::make::make;

#[unsafe(no_mangle)]
pub extern "C" fn burst_make(n: u64, m: u64, table: &mut [u64; 18]) -> u64
    ensures { MakesTable n m table.old result table.new }
{
    let answer = make(n as usize, m as usize);
    give_back(answer, table);
    refused(answer)
}
