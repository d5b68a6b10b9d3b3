// Blocks by the batch.
ghost use Rattle.std.specs.Prelude.{length};
ghost use Rattle.export.specs.Numbers.{table_of};
ghost use Rattle.link.specs.Batch.{code_batch, decode_batch, Fills};

use crate::table::table_of;
use link::code_batch::fill_coded;
use link::decode_batch::fill_decoded;

#[unsafe(no_mangle)]
pub extern "C" fn burst_code_batch(
    table: &[u64; 18],
    words: &mut [u64],
    infos: &[u16],
    entries: &mut [u32],
) -> usize
    ensures { Fills (code_batch (table_of table.now) (length entries.old) words.old
        infos.now) entries.old result words.new entries.new }
{
    let t = table_of(table);
    fill_coded(t, &t.rows, words, infos, entries)
}

#[unsafe(no_mangle)]
pub extern "C" fn burst_decode_batch(
    table: &[u64; 18],
    words: &mut [u64],
    received: &[u16],
    entries: &mut [u32],
) -> usize
    ensures { Fills (decode_batch (table_of table.now) (length entries.old) words.old
        received.now) entries.old result words.new entries.new }
{
    let t = table_of(table);
    fill_decoded(t, &t.rows, words, received, entries)
}
