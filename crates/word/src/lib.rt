// Words of 64 bits: masks, parities, the highest bit, widths; lists of them. Every function is total, but for `double_entries`, which asks
// for the room.
#![tactic(auto)]

ghost use Rattle.std.specs.Prelude.{◌≡◌, min, ◌+◌, ◌≤◌, length, take, get_or};
ghost use Rattle.word.specs.Word.{low_mask, beyond, parity, highest_bit, bad_width};
ghost use Rattle.word.specs.Parities.{parities};
ghost use Rattle.word.specs.Zeros.{zeros};
ghost use Rattle.word.specs.Marked.{xor_marked};
ghost use Rattle.word.specs.Doubled.{Doubled};

// The word with bits 0 to m - 1 set; all 64 bits from m = 64 on.
pub fn low_mask(m: u64) -> u64
    ensures { result ≡ low_mask m }
{
    if m < 64 { (1u64 << m) - 1 } else { u64::MAX }
}

// Whether w has a bit at or above m.
pub fn is_beyond(m: u64, w: u64) -> bool
    ensures { result ≡ beyond m w }
{
    low_mask(m) < w
}

// The parity of the bits that a and b share: 0 or 1.
pub fn shared_parity(a: u64, b: u64) -> u64
    ensures { result ≡ parity a b }
{
    u64::from((a & b).count_ones() % 2)
}

// The smaller of n and 64.
pub fn at_most_64(n: usize) -> usize
    ensures { result ≡ min n 64 }
{
    n.min(64)
}

// The parities of the first 64 words with y as one word, bit i for word i.
pub fn word_parities(words: &[u64], y: u64) -> u64
    ensures { result ≡ parities (take 64 words.now) y }
{
    let mut bits: u64 = 0;
    for i in (0..at_most_64(words.len())).rev() {
        bits = 2 * bits + shared_parity(words[i], y);
    }
    bits
}

// The place of w's highest bit; 0 for the word 0.
pub fn highest_bit(w: u64) -> u64
    ensures { result ≡ highest_bit w }
{
    u64::from(63u32.saturating_sub(w.leading_zeros()))
}

// The largest width of a register: the bits of a word.
pub const LARGEST_WIDTH: u64 = 64;

// Whether m is no width of a register: not 1 to 64.
pub fn is_bad_width(m: u64) -> bool
    ensures { result ≡ bad_width m }
{
    !(1..=LARGEST_WIDTH).contains(&m)
}

// The word of place c; 0 past the end.
pub fn word_at(words: &[u64], c: usize) -> u64
    ensures { result ≡ get_or words.now c 0 }
{
    words.get(c).copied().unwrap_or(0)
}

// Puts 0 into every place.
pub fn clear_words(words: &mut [u64])
    ensures { words.new ≡ zeros (length words.old) }
{
    words.fill(0);
}

// The XOR of the words whose bit in `marks` is 1, bit i for word i. It goes from one such bit to the next.
pub fn xor_marked(words: &[u64], marks: u64) -> u64
    ensures { result ≡ xor_marked words.now marks }
{
    let mut left = marks & low_mask(words.len() as u64);
    let mut sum: u64 = 0;
    // no plainer: it goes from one bit to the next
    while left != 0 {
        let low = left.trailing_zeros() as usize;
        sum ^= words[low];
        left &= left - 1;
    }
    sum
}

// Entries e + h to e + 2 h - 1 of a table from the h entries from e on: each of these with the word w XORed in.
pub fn double_entries(table: &mut [u64], e: usize, h: usize, w: u64)
    requires { e + h + h ≤ length table.old }
    ensures { Doubled table.old table.new e h h w }
{
    for j in 0..h {
        table[e + h + j] = table[e + j] ^ w;
    }
}
