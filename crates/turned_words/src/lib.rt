// Words turned: row b has bit b of every word, so a column's parities with all words are the XOR of the rows of its bits. And words in 64
// slots, of which some are dead: how many of them are held. It sees words and combinations.
#![tactic(auto)]

ghost use Rattle.std.specs.Prelude.{◌≡◌, List, ℕ, length, take};
ghost use Rattle.turned_words.specs.Turned.{kept, Turns, XoredInto, dead_behind};

// XORs x into the words whose bit in `marks` is 1, bit i for word i. It goes from one such bit to the next.
pub fn xor_into(words: &mut [u64], marks: u64, x: u64)
    ensures { XoredInto words.old words.new marks x }
{
    let mut left = marks & word::low_mask(words.len() as u64);
    // no plainer: it goes from one bit to the next
    while left != 0 {
        let low = left.trailing_zeros() as usize;
        words[low] ^= x;
        left &= left - 1;
    }
}

// The rows of the first 64 words: for each bit that bit of every word, which is its parity with the single bit.
pub fn turn(words: &[u64]) -> [u64; 64]
    ensures { Turns (take 64 words.now) result }
{
    let mut rows = [0; 64];
    for (i, w) in words[..words.len().min(64)].iter().enumerate() {
        xor_into(&mut rows, *w, 1 << i);
    }
    rows
}

// How many of 64 slots aren't dead.
pub fn held_count(dead: u64) -> usize
    ensures { (ws : List ℕ) → length ws ≡ 64 → result ≡ length (kept dead ws) }
{
    64 - dead.count_ones() as usize
}

// The slots behind the first m, which are dead where m words stand in 64 slots.
pub fn dead_behind(m: usize) -> u64
    ensures { result ≡ dead_behind m }
{
    !word::low_mask(m as u64)
}
