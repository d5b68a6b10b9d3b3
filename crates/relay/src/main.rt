// The codec used from Rattle: a station codes water levels by the batch, a fade damages m blocks in a row, and a relay
// decodes what it received by the batch. Prints a line a delivery: its number, the level and the mark.
#![tactic(auto)]

ghost use Rattle.std.specs.Prelude.{◌≤◌, length};

use link::code_batch::code_batch;
use link::decode_batch::decode_batch;
use link::refusal::Refusal;
use link::start::{start_coder, start_decoder};
use std::{array, fmt, io};
use tables::make::{MakeError, make};
use tables::table::Table;

// n: twelve bits of information and the parity.
const SYMBOLS: usize = 13;

// m: a fade of three blocks meets each stream once.
const DEPTH: usize = 3;

// N of a made table.
const SPAN: usize = 2 * SYMBOLS;

const LEVELS: usize = 24;

// As many more as the decoder's delay, m × (N − 1), so that the last level is delivered.
const BLOCKS: usize = LEVELS + DEPTH * (SPAN - 1);

// What the decoder found of a block, as an entry tells it: without the error block that link's `Mark` carries.
#[derive(Clone, Copy)]
enum Mark {
    Clean,
    Held,
    Corrected,
    Doubtful,
    Parity,
}

impl fmt::Display for Mark {
    fn fmt<W: fmt::Write>(&self, f: &mut fmt::Formatter<W>) -> fmt::Result {
        match self {
            Mark::Clean => write!(f, "clean"),
            Mark::Held => write!(f, "held"),
            Mark::Corrected => write!(f, "corrected"),
            Mark::Doubtful => write!(f, "doubtful"),
            Mark::Parity => write!(f, "parity"),
        }
    }
}

#[derive(Clone, Copy)]
struct Delivery {
    level: u16,
    mark: Mark,
}

impl Delivery {
    // An entry of the decoder is mark × 65536 + information. Mark 0 is nothing yet.
    fn from_entry(entry: u32) -> Option<Delivery> {
        let mark = match entry / 65536 {
            1 => Mark::Clean,
            2 => Mark::Held,
            3 => Mark::Corrected,
            4 => Mark::Doubtful,
            5 => Mark::Parity,
            _ => return None,
        };
        Some(Delivery {
            level: (entry % 65536) as u16,
            mark,
        })
    }
}

// Why nothing is sent.
#[derive(Clone, Copy)]
enum Refused {
    Table(MakeError),
    Memory(Refusal),
}

impl From<MakeError> for Refused {
    fn from(error: MakeError) -> Refused {
        Refused::Table(error)
    }
}

impl From<Refusal> for Refused {
    fn from(refusal: Refusal) -> Refused {
        Refused::Memory(refusal)
    }
}

impl fmt::Display for Refused {
    fn fmt<W: fmt::Write>(&self, f: &mut fmt::Formatter<W>) -> fmt::Result {
        let number = match *self {
            Refused::Table(error) => u64::from(error),
            Refused::Memory(refusal) => u64::from(refusal),
        };
        write!(f, "refused {number}")
    }
}

// In mm: the water rises to a crest, and falls. After the last level come zeros.
fn level(block: usize) -> u16 {
    if block < 12 {
        1200 + 5 * (block as u16)
    } else if block < LEVELS {
        1320 - 5 * (block as u16)
    } else {
        0
    }
}

// The fade damages m blocks in a row: an error block has a one for each wrong symbol.
fn error(block: usize) -> u16 {
    match block {
        8 => 2906,
        9 => 4099,
        10 => 1,
        _ => 0,
    }
}

// The channel. An entry of the coder is the coded block. Returns the part of the lent blocks that it filled.
fn receive<'a>(sent: &[u32], received: &'a mut [u16]) -> &'a [u16]
    ensures within { length result.now ≤ length received.old }
{
    let count = sent.len().min(received.len());
    let received = &mut received[..count];
    for (i, (entry, block)) in sent.iter().zip(received.iter_mut()).enumerate() {
        *block = ((entry % 65536) as u16) ^ error(i);
    }
    received
}

// Three writes a line, so that where one fails the fields before it have been written.
fn print(rt: &impl Print, entries: &[u32]) -> io::Result<()> {
    let deliveries = entries
        .iter()
        .filter_map(|entry| Delivery::from_entry(*entry));
    for (number, delivery) in deliveries.enumerate() {
        print!(rt; "{number} ")?;
        print!(rt; "{} ", delivery.level)?;
        println!(rt; "{}", delivery.mark)?;
    }
    Ok(())
}

// A batch returns the part of the lent entries that it filled, one entry a block taken. It ends where these are full, and
// before a block that the single call would refuse; that call says why.
fn relay(rt: &impl Print, t: Table, coder: &mut [u64], decoder: &mut [u64]) -> io::Result<()> {
    let levels: [u16; BLOCKS] = array::from_fn(level);
    let mut coded = [0; BLOCKS];
    let mut received = [0; BLOCKS];
    let mut decoded = [0; BLOCKS];
    let sent = code_batch(t, coder, &levels, &mut coded);
    let arrived = receive(sent, &mut received);
    let entries = decode_batch(t, decoder, arrived, &mut decoded);
    print(rt, entries)?;
    if entries.len() < BLOCKS {
        println!(rt; "not all blocks were taken")?;
    }
    Ok(())
}

// The table of these numbers, with both memories started. Nothing is refused, and the answers are looked at all the
// same.
fn start(coder: &mut [u64], decoder: &mut [u64]) -> Result<Table, Refused> {
    let table = make(SYMBOLS, DEPTH)?;
    start_coder(table, coder)?;
    start_decoder(table, decoder)?;
    Ok(table)
}

fn main(rt: HostRuntime) -> io::Result<()> {
    let mut coder = [0; 1 + DEPTH];
    let mut decoder = [0; 2 + DEPTH * (SPAN + 1)];
    match start(&mut coder, &mut decoder) {
        Ok(table) => relay(&rt, table, &mut coder, &mut decoder),
        Err(refused) => println!(&rt; "{refused}"),
    }
}
