// Combinations of up to 16 words by four tables of 16 words, one for each four bits of the coefficients.
ghost use Rattle.std.specs.Prelude.{◌≡◌, ◌+◌, ◌%◌, ◌<◌, ◌≤◌, length, take, slice_index};
ghost use Rattle.span.specs.Lookup.{lookup_of, looked_up, Doubled, Grouped};

// The number that the lowest four bits are.
fn low_four(x: u64) -> usize
    ensures { result ≡ x % 16 }
{
    (x & 15) as usize
}

// Word j, or 0 where there is none.
fn word_or_zero(words: &[u64], j: usize) -> u64
    ensures { result ≡ slice_index words.now j }
{
    words.get(j).copied().unwrap_or(0)
}

// One more word taken up: the `width` entries from `at` on, with the word added, follow them.
fn double(tables: &mut [u64; 64], at: usize, width: usize, row: u64)
    requires { (length tables.old ≡ 64) × (at + width + width ≤ 64) }
    ensures { Doubled at width width row tables.old tables.new }
{
    let next = at + width;
    for v in 0..width {
        tables[next + v] = tables[at + v] ^ row;
    }
}

// The table of words 4 g to 4 g + 3, in place: its entry 0 stays, and each word doubles what is there.
fn group(tables: &mut [u64; 64], words: &[u64], g: usize)
    requires { (length tables.old ≡ 64) × (g < 4) }
    ensures { Grouped (take 16 words.now) g tables.old tables.new }
{
    let at = 16 * g;
    let first = 4 * g;
    double(tables, at, 1, word_or_zero(words, first));
    double(tables, at, 2, word_or_zero(words, first + 1));
    double(tables, at, 4, word_or_zero(words, first + 2));
    double(tables, at, 8, word_or_zero(words, first + 3));
}

// The tables of the first `count` words, at most 16: a count past the slice's end is its length, so that it is no
// caller's to cut. Each word is fetched once.
pub fn lookup_of(words: &[u64], count: usize) -> [u64; 64]
    ensures { result ≡ lookup_of (take 16 (take count words.now)) }
{
    let words = &words[..count.min(words.len())];
    let mut tables = [0; 64];
    for g in 0..4 {
        group(&mut tables, words, g);
    }
    tables
}

// The combination by the tables: four words fetched, whatever the coefficients are.
pub fn look_up(tables: &[u64; 64], coefficients: u64) -> u64
    ensures { result ≡ looked_up tables.now coefficients }
{
    let a = tables[low_four(coefficients)];
    let b = tables[16 + low_four(coefficients >> 4)];
    let c = tables[32 + low_four(coefficients >> 8)];
    let d = tables[48 + low_four(coefficients >> 12)];
    a ^ b ^ c ^ d
}
