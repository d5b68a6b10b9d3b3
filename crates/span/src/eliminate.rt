// Elimination over GF(2): a basis by value, and the least relation among words.
ghost use Rattle.std.specs.Prelude.{◌≡◌, ◌^◌, ◌<◌, ◌≤◌, length, IfOk};
ghost use Rattle.std.specs.Result.{result_err};
ghost use Rattle.span.specs.Relation.{least_relation};
ghost use Rattle.span.specs.Basis.{reduction};
ghost use Rattle.span.specs.Elimination.{pivot, basis_of};
ghost use Rattle.span.specs.Combination.{counted};

use crate::bits::{one_at, parity, select};

// `size` triples: what was left of a word that joined, a check word that has an odd count of common ones with it, and
// the coefficients that make it from the words. Arrays with a size and no `Vec`, since nothing here is on a heap. Three
// of them, and not one of triples: the check words are a slice, which `together` takes and `dual_basis` replaces whole.
#[derive(Clone, Copy)]
pub struct Basis {
    pub size: usize,
    pub vectors: [u64; 32],
    pub checks: [u64; 32],
    pub coefficients: [u64; 32],
}

// What is left of a word, and the coefficients of what was taken away.
#[derive(Clone, Copy)]
pub struct Reduced {
    pub rest: u64,
    pub coefficients: u64,
}

// A word reduced by the triples in their order. Any basis has an answer: a size above 32 counts as 32.
pub(crate) fn reduce_by(b: &Basis, x: u64) -> Reduced
    ensures { result ≡ reduction b.now x }
{
    let mut rest = x;
    let mut coefficients = 0;
    for i in 0..b.size.min(32) {
        let on = parity(rest, b.checks[i]);
        rest ^= select(b.vectors[i], on);
        coefficients ^= select(b.coefficients[i], on);
    }
    Reduced { rest, coefficients }
}

// The place of the one of v that is nearest an end of the word: any of its ones would do.
fn pivot(v: u64) -> usize
    requires { 0 < v }
    ensures { (result ≡ pivot v) × (result < 64) }
{
    let low = v.trailing_zeros() as usize;
    let high = v.leading_zeros() as usize;
    if low <= high {
        return low;
    }
    63 - high
}

fn check_word(v: u64) -> u64
    requires { 0 < v }
    ensures { result ≡ 2 ^ pivot v }
{
    one_at(pivot(v))
}

// The words that count where `count` are asked for: no more than there are, and no more than a basis has room for. A
// count past the slice's end has its answer here, so the public functions take a slice and a count.
fn counted(words: &[u64], count: usize) -> &[u64]
    ensures { result.now ≡ counted count words.now }
{
    &words[..count.min(words.len()).min(32)]
}

// The basis of the words, taken up one by one, or as `Err` the relation of the first word from `f` on of which nothing
// is left. What is left of a word joins the basis; a word below f of which nothing is left is passed over.
fn eliminate(words: &[u64], f: usize) -> Result<Basis, u64>
    requires { length words.now ≤ 32 }
    ensures relation { result_err result ≡ least_relation words.now f }
    ensures basis { IfOk result (λ b. b ≡ basis_of words.now) }
{
    let mut b = Basis {
        size: 0,
        vectors: [0; 32],
        checks: [0; 32],
        coefficients: [0; 32],
    };
    for (i, word) in words.iter().enumerate() {
        let r = reduce_by(&b, *word);
        let rest = r.rest;
        let coefficients = r.coefficients ^ one_at(i);
        if rest == 0 {
            if f <= i {
                return Err(coefficients);
            }
        } else {
            let at = b.size;
            b.vectors[at] = rest;
            b.checks[at] = check_word(rest);
            b.coefficients[at] = coefficients;
            b.size = at + 1;
        }
    }
    Ok(b)
}

// The basis of the words that count: from the end on there is no word to stop at.
pub(crate) fn basis_of(words: &[u64], count: usize) -> Basis
    ensures { result ≡ basis_of (counted count words.now) }
{
    let words = counted(words, count);
    eliminate(words, words.len()).unwrap()
}

// The least relation from `f` among the words that count. There is none where f is their number or above.
pub fn least_relation(words: &[u64], count: usize, f: usize) -> Option<u64>
    ensures { result ≡ least_relation (counted count words.now) f }
{
    eliminate(counted(words, count), f).err()
}
