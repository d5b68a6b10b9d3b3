// The opening of the listing program: the header, the made table of its first two bytes, and the decoder started.
ghost use Rattle.std.specs.Prelude.{◌≡◌, true, ◌+◌, ◌≤◌, length};
ghost use Rattle.tables.specs.Table.{fit};
ghost use Rattle.tables.specs.Made.{making};
ghost use Rattle.report.specs.Writing.{longest, Pushes};
ghost use Rattle.report.specs.Opening.{opening_room, memory_words, started_in, decoder_of, opened_made, opened_decoder};
ghost use Rattle.report.specs.Opening.{opened_memory, opened_within, Opens};

use crate::text::{LONGEST, Lines};
use link::start::start_decoder;
use tables::make::make;
use tables::table::Table;

// A made table whose decoder is started in the first words of the memory, how many these are, and the number of the
// first delivery. The count, and no lent part of the memory: `Opens` says what every word of it is at the return, which
// it could not say of words that are still lent.
#[derive(Clone, Copy)]
pub struct Decoder {
    pub table: Table,
    pub words: usize,
    pub number: u64,
}

// The count of bytes written, and no part of the lent ones, of which the promise says every byte; and the decoder, or
// none where the program is to stop.
#[derive(Clone, Copy)]
pub struct Opened {
    pub end: usize,
    pub decoder: Option<Decoder>,
}

// The words of the longest memory of a made table: m is at most 64, and N at most 32.
const WORDS: usize = 2 + 64 * 33;

// Room for the memory, and for two lines.
#[tactic(auto, unfolding(crate::specs::Opening::opening_room))]
fn has_room(words: usize, bytes: usize) -> bool
    ensures { result ≡ opening_room words bytes }
{
    WORDS <= words && 2 * LONGEST <= bytes
}

// The decoder of a fit table, which no start refuses: the memory is started, as the contract says.
fn started(t: Table, memory: &mut [u64]) -> Decoder
    requires { (fit t ≡ true) × (t.span ≤ 32) × (memory_words ≤ length memory.old) }
    ensures answer { result ≡ decoder_of t }
    ensures memory { memory.new ≡ started_in t memory.old }
{
    let words = 2 + t.depth * (t.span + 1);
    let _ = start_decoder(t, &mut memory[0..words]);
    Decoder {
        table: t,
        words,
        number: 0,
    }
}

// After the header: a table and its decoder, or refusal 11.
fn after_header(n: usize, m: usize, memory: &mut [u64], lines: &mut Lines) -> Option<Decoder>
    requires { (memory_words ≤ length memory.old) × (lines.old.end + longest ≤ length lines.old.bytes.now) }
    ensures text { Pushes (opened_made (making n m)).text lines.old lines.new }
    ensures decoder { result ≡ opened_decoder (opened_made (making n m)) }
    ensures memory { memory.new ≡ opened_memory (opened_made (making n m)) memory.old }
{
    match make(n, m) {
        Ok(table) => Some(started(table, memory)),
        Err(error) => {
            lines.refusal(error.into());
            None
        }
    }
}

// `sizes` are the first two bytes of the input, or all that it has; of more, those after the second are not looked at.
// Without room nothing is written, and the program is to stop.
pub fn opening(sizes: &[u8], memory: &mut [u64], out: &mut [u8]) -> Opened
    ensures { Opens (opened_within (length memory.old) (length out.old) sizes.now)
        memory.old memory.new out.old out.new result }
{
    let mut lines = Lines::new(out);
    if !has_room(memory.len(), lines.bytes.len()) {
        return Opened {
            end: 0,
            decoder: None,
        };
    }
    lines.header();
    let [n, m, ..] = sizes else {
        return Opened {
            end: lines.end,
            decoder: None,
        };
    };
    let decoder = after_header(*n as usize, *m as usize, memory, &mut lines);
    Opened {
        end: lines.end,
        decoder,
    }
}
