// Starting a memory.
ghost use Rattle.link.specs.Memory.{coder_words, decoder_words};
ghost use Rattle.export.specs.Numbers.{table_of};
ghost use Rattle.export.specs.Promises.{StartsBy};

use crate::answer::refused;
use crate::table::table_of;
use link::start::{start_coder, start_decoder};

#[unsafe(no_mangle)]
pub extern "C" fn burst_start_coder(table: &[u64; 18], words: &mut [u64]) -> u64
    ensures { StartsBy (table_of table.now) (coder_words (table_of table.now)) words.old result
        words.new }
{
    refused(start_coder(table_of(table), words))
}

#[unsafe(no_mangle)]
pub extern "C" fn burst_start_decoder(table: &[u64; 18], words: &mut [u64]) -> u64
    ensures { StartsBy (table_of table.now) (decoder_words (table_of table.now)) words.old result
        words.new }
{
    refused(start_decoder(table_of(table), words))
}
