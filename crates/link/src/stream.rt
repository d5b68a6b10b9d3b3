// What steps do alike: the turn, the fill, and delayed blocks that move.
ghost use Rattle.std.specs.Prelude.{◌≡◌, ◌+◌, ◌≤◌, ◌<◌, cond, ltb};
ghost use Rattle.link.specs.Memory.{next_turn, pushed};

// The turn after a step. An out-of-range turn is followed by 0.
pub(crate) fn next_turn(depth: u64, turn: u64) -> u64
    ensures inside { turn < depth → result ≡ next_turn depth turn }
    ensures outside { depth ≤ turn → result ≡ 0 }
{
    if turn < depth {
        let next = turn + 1;
        if next < depth {
            return next;
        }
    }
    0
}

// The fill after a step: it grows to where it is complete, and stays.
pub fn next_fill(delay: u64, fill: u64) -> u64
    ensures { result ≡ cond (ltb fill delay) (fill + 1) fill }
{
    if fill < delay { fill + 1 } else { fill }
}

// The words from `from` on move by one place, the first of them leaves, and another joins as the last. Where there are
// none nothing changes.
pub fn push(words: &mut [u64], from: usize, youngest: u64)
    ensures { words.new ≡ pushed from youngest words.old }
{
    if words.len() <= from {
        return;
    }
    let last = words.len() - 1;
    // Not `copy_within`: with it a decoder's step on right blocks takes 0.7 ns more where n is 2 (of 21.0), 1.3 ns more
    // where n is 16 (of 36.8), and a batch's 0.3 to 0.7 ns more.
    for i in from..last {
        words[i] = words[i + 1];
    }
    words[last] = youngest;
}
