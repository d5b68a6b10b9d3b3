// Filling lent blocks with a load, round by round.
ghost use Rattle.std.specs.Prelude.{◌≡◌, ◌++◌, ◌≤◌, ◌<◌, length, take, drop};
ghost use Rattle.load.specs.Draws.{after};
ghost use Rattle.load.specs.Load.{errors, round, after_round, load};
ghost use Rattle.load.specs.Filling.{refusal_number, Loads};

use crate::generator::Generator;
use span::bits::mask;
use tables::table::{Table, is_fit};

// Why no load is filled, with the numbers 12 and 17.
#[derive(Clone, Copy, Debug, PartialEq, Eq)]
pub enum LoadError {
    UnfitTable,
    ZeroSeed,
}

impl From<LoadError> for u64 {
    ghost from_gives = { λ e n. n ≡ refusal_number e };

    fn from(e: LoadError) -> u64 {
        match e {
            LoadError::UnfitTable => 12,
            LoadError::ZeroSeed => 17,
        }
    }
}

// What a load is drawn by, of a fit table: the symbols of a block, the most blocks of a burst, and the least of a gap.
#[derive(Clone, Copy)]
struct Channel {
    symbols: usize,
    depth: usize,
    guard: usize,
    ghost symbols_to: { symbols ≤ 16 },
    ghost depth_from: { 1 ≤ depth },
    ghost depth_to: { depth ≤ 64 },
    ghost guard_to: { guard ≤ 4096 },
}

// How many blocks of a round were filled, and the generator after it. A tuple is no plainer: it would name neither.
#[derive(Clone, Copy)]
struct Round {
    length: usize,
    next: Generator,
}

impl Channel {
    // The errors of a burst: a draw for each block.
    fn fill_errors(self, out: &mut [u16], generator: Generator) -> Generator
        ensures blocks { out.new ≡ errors self.symbols (length out.old) generator.state }
        ensures generator { result.state ≡ after (length out.old) generator.state }
    {
        let most = mask(self.symbols);
        let mut g = generator;
        for block in out.iter_mut() {
            let d = g.draw();
            *block = ((d.number as u64) & most) as u16;
            g = d.next;
        }
        g
    }

    // A round, cut where the lent blocks end: then no other follows, and the generator does not matter.
    fn fill_round(self, out: &mut [u16], generator: Generator) -> Round
        ensures size { result.length
            ≡ length (take (length out.old) (round self.symbols self.depth self.guard generator.state)) }
        ensures blocks { out.new
            ≡ take (length out.old) (round self.symbols self.depth self.guard generator.state)
            ++ drop result.length out.old }
        ensures generator { result.length < length out.old
            → result.next.state ≡ after_round self.depth generator.state }
    {
        let d = generator.draw();
        let burst = (1 + (d.number as usize) % self.depth).min(out.len());
        let g = self.fill_errors(&mut out[..burst], d.next);
        let d = g.draw();
        let end = (burst + self.guard + (d.number as usize) % 16).min(out.len());
        out[burst..end].fill(0);
        Round {
            length: end,
            next: d.next,
        }
    }

    // Rounds up to the end of the lent blocks. A round's length is drawn, so it is a `while` over what is left.
    fn fill_rounds(self, out: &mut [u16], seed: u32)
        ensures { out.new ≡ load self.symbols self.depth self.guard seed (length out.old) }
    {
        let mut g = Generator { state: seed };
        let mut at = 0;
        while at < out.len() {
            let r = self.fill_round(&mut out[at..], g);
            g = r.next;
            at += r.length;
        }
    }
}

// Fills the lent blocks, to their end, with the load of this table and seed.
pub fn fill_load(t: Table, seed: u32, out: &mut [u16]) -> Result<(), LoadError>
    ensures { Loads t seed out.old result out.new }
{
    if !is_fit(t.symbols, t.span, t.depth, &t.rows) {
        return Err(LoadError::UnfitTable);
    }
    if seed == 0 {
        return Err(LoadError::ZeroSeed);
    }
    let channel = Channel {
        symbols: t.symbols,
        depth: t.depth,
        guard: t.depth * (t.span - 1),
    };
    channel.fill_rounds(out, seed);
    Ok(())
}
