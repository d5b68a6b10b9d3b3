// The loop of the listing program: received blocks are decoded, and their lines written.
ghost use Rattle.std.specs.Prelude.{◌≡◌, ◌+◌, ◌*◌, ◌/◌, ◌≤◌, ◌<◌, ◌^◌, length};
ghost use Rattle.report.specs.Writing.{longest};
ghost use Rattle.report.specs.Listing.{Printed, listed, part_room, part_listed, Lists};

use crate::text::{LONGEST, Lines};
use link::decode::{Delivered, decode};
use link::refusal::Refusal;
use std::ops::ControlFlow;
use tables::table::Table;

// How far a listing came: the count of bytes written, as in an opening, and the number of the next delivery. The listing
// goes on with that number (`Continue`), or it stopped there (`Break`).
#[derive(Clone, Copy)]
pub struct Progress {
    pub end: usize,
    pub next: ControlFlow<u64, u64>,
}

// What one answer prints.
fn answer_line(
    answer: Result<Option<Delivered>, Refusal>,
    number: u64,
    lines: &mut Lines,
) -> ControlFlow<u64, u64>
    requires { (lines.old.end + longest ≤ length lines.old.bytes.now) × (number + 1 < 2 ^ 64) }
    ensures { Printed number answer lines.old lines.new result }
{
    match answer {
        Ok(Some(d)) => {
            lines.delivery(number, d);
            ControlFlow::Continue(number + 1)
        }
        Ok(None) => ControlFlow::Continue(number),
        Err(refusal) => {
            lines.refusal(u64::from(refusal));
            ControlFlow::Break(number)
        }
    }
}

// Every block, and then an odd byte. There is room for all of their lines.
fn list(
    t: Table,
    state: &mut [u64],
    bytes: &[u8],
    first: u64,
    lines: &mut Lines,
) -> ControlFlow<u64, u64>
    requires { (first ≤ 2 ^ 63) × (lines.old.end ≡ 0)
        × (longest * (length bytes.now / 2 + 1) ≤ length lines.old.bytes.now) }
    ensures same_reference { lines.new.bytes.ghost_name ≡ lines.old.bytes.ghost_name }
    ensures listed { Lists (listed t state.old first bytes.now) lines.old.bytes.now lines.new.bytes.now
        state.new lines.new.end result }
{
    let mut number = first;
    let (blocks, odd) = bytes.as_chunks::<2>();
    for block in blocks {
        let answer = decode(t, state, u16::from_le_bytes(*block));
        number = answer_line(answer, number, lines)?;
    }
    if !odd.is_empty() {
        lines.odd_byte();
        return ControlFlow::Break(number);
    }
    ControlFlow::Continue(number)
}

// Whether the numbers of the lines and the lines themselves have room.
#[tactic(auto, using(crate::proofs::Room::room_divided), unfolding(crate::specs::Listing::part_room))]
fn fits(number: u64, bytes: usize, room: usize) -> bool
    ensures { result ≡ part_room number bytes room }
{
    number <= 1 << 63 && bytes / 2 + 1 <= room / LONGEST
}

// A part of the input, an even one unless it is the last, listed into `out` from its start on. The listing goes on from
// the memory, with the number that is returned. Where its lines have no room, or the number is above 2^63, nothing is
// listed, no word is written, and the listing stops.
pub fn part(t: Table, state: &mut [u64], bytes: &[u8], number: u64, out: &mut [u8]) -> Progress
    ensures { Lists (part_listed t state.old number bytes.now (length out.old))
        out.old out.new state.new result.end result.next }
{
    let mut lines = Lines::new(out);
    if !fits(number, bytes.len(), lines.bytes.len()) {
        return Progress {
            end: 0,
            next: ControlFlow::Break(number),
        };
    }
    let next = list(t, state, bytes, number, &mut lines);
    Progress {
        end: lines.end,
        next,
    }
}
