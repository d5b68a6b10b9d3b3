// Reduction at once: check words, made once, that test a word itself, so that no step waits for the one before.
ghost use Rattle.std.specs.Prelude.{◌≡◌, ◌≤◌, length, min};
ghost use Rattle.span.specs.Combination.{counted};
ghost use Rattle.span.specs.Elimination.{basis_of};
ghost use Rattle.span.specs.Dual.{crossed, dual_checks, dual, together, at_once, least_by};

use crate::bits::{parity, select};
use crate::eliminate::{Basis, Reduced, basis_of};

// A check word, with each of the first `end` new ones added whose vector has an odd count of common ones with it.
fn dual_check(vectors: &[u64; 32], duals: &[u64; 32], check: u64, end: usize) -> u64
    requires { end ≤ 32 }
    ensures { result ≡ crossed vectors.now duals.now check end }
{
    let mut sum = check;
    for i in 0..end {
        sum ^= select(duals[i], parity(vectors[i], check));
    }
    sum
}

// The new check words, in the order of the triples: each is made of those before.
fn dual_checks(b: &Basis) -> [u64; 32]
    ensures { result ≡ dual_checks b.now }
{
    let mut duals = [0; 32];
    for i in 0..b.size.min(32) {
        duals[i] = dual_check(&b.vectors, &duals, b.checks[i], i);
    }
    duals
}

// The basis of the first `count` words, with check words that test a word itself. A count past the slice's end is its
// length, and words past the 32nd do not count.
pub fn dual_basis(words: &[u64], count: usize) -> Basis
    ensures { result ≡ dual (basis_of (counted count words.now)) }
{
    let mut b = basis_of(words, count);
    b.checks = dual_checks(&b);
    b
}

// A word reduced by the triples, each of which tests the word itself and not what is left of it, as in `reduce_by`
// (`AtOnce` says when the two agree): with no branch but the loop's. Any basis has an
// answer: a size above 32 counts as 32.
fn reduce_at_once(b: &Basis, x: u64) -> Reduced
    ensures { result ≡ at_once b.now x }
{
    let mut rest = x;
    let mut coefficients = 0;
    for i in 0..b.size.min(32) {
        let on = parity(x, b.checks[i]);
        rest ^= select(b.vectors[i], on);
        coefficients ^= select(b.coefficients[i], on);
    }
    Reduced { rest, coefficients }
}

// The ones of the words together.
pub fn together(words: &[u64]) -> u64
    ensures { result ≡ together words.now (length words.now) }
{
    words.iter().fold(0, |ones, word| ones | word)
}

impl Basis {
    // The ones of the check words together. Any size has an answer: one above 32 counts as 32.
    pub fn ones(&self) -> u64
        ensures { result ≡ together self.now.checks (min self.now.size 32) }
    {
        together(&self.checks[..self.size.min(32)])
    }

    // What a dual basis says of a word: its least coefficients, or that it has none. `ones` are those of the check
    // words together: a word that has none of them is not reduced.
    pub fn least(&self, ones: u64, x: u64) -> Option<u64>
        ensures { result ≡ least_by self.now ones x }
    {
        if x == 0 {
            return Some(0);
        }
        if x & ones == 0 {
            return None;
        }
        let reduced = reduce_at_once(self, x);
        if reduced.rest == 0 {
            return Some(reduced.coefficients);
        }
        None
    }
}
