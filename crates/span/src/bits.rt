// One word: the parity of the ones that it has in common with another, selection, masks, shifts, the weight of a bit.
ghost use Rattle.std.specs.Prelude.{◌≡◌, ◌-◌, ◌%◌, ◌^◌, min};
ghost use Rattle.span.specs.Word.{sel, digit, odd, common_parity, shifted};

// 1 where the count of common ones is odd, else 0: no branch.
pub(crate) fn parity(a: u64, b: u64) -> u64
    ensures { result ≡ digit (common_parity 64 a b) }
{
    ((a & b).count_ones() % 2) as u64
}

// The word where `on` is odd, else 0: no branch, since the bits that select are random.
pub fn select(word: u64, on: u64) -> u64
    ensures { result ≡ sel (odd on) word }
{
    word & (on % 2).wrapping_neg()
}

// The lowest `bits` places all ones. A word has 64: more bits than that are 64.
pub fn mask(bits: usize) -> u64
    ensures { result ≡ 2 ^ min bits 64 - 1 }
{
    if bits < 1 {
        return 0;
    }
    if 64 < bits {
        return u64::MAX;
    }
    u64::MAX >> ((64 - bits) as u64)
}

// The word shifted by `by` places in `bits` bits; more bits than 64 are 64.
pub fn shift(word: u64, by: usize, bits: usize) -> u64
    ensures { result ≡ shifted (min bits 64) by word }
{
    if 64 <= by {
        return 0;
    }
    (word << (by as u64)) & mask(bits)
}

// The weight of a bit of the word, 0 past the last.
pub fn one_at(place: usize) -> u64
    ensures { result ≡ 2 ^ place % 2 ^ 64 }
{
    shift(1, place, 64)
}
