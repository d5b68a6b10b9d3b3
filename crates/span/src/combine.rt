// Combinations of words by a coefficient number.
ghost use Rattle.std.specs.Prelude.{◌≡◌, take};
ghost use Rattle.span.specs.Combination.{combination};

use crate::bits::select;

// The exclusive or of the first `count` words that `coefficients` selects, word i by bit i. Of rows this is the image
// of an error block. The line that adds to the sum is the one that fetches a row, once for its symbol: the bits of a
// row are added together, not one after another, whatever the span is. A slice and a count, and no shorter slice: a
// count past the slice's end has its answer here (`take count words.now`), where cutting it would be the caller's to
// prove.
pub fn combination(words: &[u64], count: usize, coefficients: u64) -> u64
    ensures { result ≡ combination (take count words.now) coefficients }
{
    let end = count.min(words.len());
    let mut sum: u64 = 0;
    let mut left = coefficients;
    for word in &words[..end] {
        sum ^= select(*word, left);
        left /= 2;
    }
    sum
}
