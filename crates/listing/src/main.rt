// The listing program of 01: it reads n, m and received blocks, and prints what the decoder of the made table delivers.
// What is printed, and from which memory and number the next part goes on, is decided in `report`; here bytes move
// between the input, the buffers and the output. A read or a write that fails is told on standard error.
#![tactic(auto)]

mod failure;
mod input;

use failure::{Told, tell};
use input::read;
use report::opening::opening;
use report::part::part;
use std::io;
use std::io::Read;
use std::ops::ControlFlow;
use tables::table::Table;

// The most bytes that a turn reads, an even number: their lines have room in the buffer (`ProgramRoom`).
const PART: usize = 2048;

const ROOM: usize = 65536;

// Lines are written. A run tells one failure: where the input failed before, that one.
fn print(rt: &(impl Print + Eprint), lines: &[u8], failure: Option<io::Error>) -> Result<(), Told> {
    if let Some(error) = failure {
        let told = tell(rt, "standard input", &error);
        let _ = rt.write_all(lines);
        return Err(told);
    }
    rt.write_all(lines)
        .map_err(|error| tell(rt, "standard output", &error))
}

// One part of the input: it is read and its lines are written. Where the program is to go on, the next delivery's
// number is returned.
fn turn(
    rt: &(impl Print + Eprint),
    from: &mut impl Read,
    t: Table,
    state: &mut [u64],
    number: u64,
) -> Result<Option<u64>, Told> {
    let mut bytes = [0u8; PART];
    let mut out = [0u8; ROOM];
    let input = read(from, &mut bytes);
    let count = input.count;
    let p = part(t, state, &bytes[..count], number, &mut out);
    print(rt, &out[..p.end], input.failure)?;
    match p.next {
        ControlFlow::Continue(next) if count == PART => Ok(Some(next)),
        _ => Ok(None),
    }
}

// No input has as many turns as the loop.
fn turns(
    rt: &(impl Print + Eprint),
    from: &mut impl Read,
    t: Table,
    state: &mut [u64],
    first: u64,
) -> Result<(), Told> {
    let mut number = first;
    for _ in 0..u64::MAX {
        match turn(rt, from, t, state, number)? {
            Some(next) => number = next,
            None => break,
        }
    }
    Ok(())
}

fn run(rt: &(impl Print + Eprint), from: &mut impl Read) -> Result<(), Told> {
    let mut sizes = [0u8; 2];
    let mut memory = [0u64; 2114];
    let mut out = [0u8; 86];
    let input = read(from, &mut sizes);
    let count = input.count;
    let o = opening(&sizes[..count], &mut memory, &mut out);
    print(rt, &out[..o.end], input.failure)?;
    match o.decoder {
        Some(d) => turns(rt, from, d.table, &mut memory[..d.words], d.number),
        None => Ok(()),
    }
}

// A failure has been told, and changes nothing else: the exit status is 0.
fn main(rt: HostRuntime) {
    let mut from = rt.stdin();
    let _ = run(&rt, &mut from);
}
