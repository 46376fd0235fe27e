// The set file of document 01: where each of its parts stands, and the parts before and behind its rows, as the set gives them. It sees
// numbers, rows, ties and the register's limits; it knows no refusal. A part past the end of the set counts as 0. Every public
// function is total.
#![tactic(auto)]

ghost use Rattle.std.specs.Prelude.{◌≡◌, ◌*◌, ◌≤◌, length, take};
ghost use Rattle.word.specs.Reply.{front};
ghost use Rattle.numbers.specs.Bytes.{count_at};
ghost use Rattle.rows.specs.Row.{row_bytes};
ghost use Rattle.set_layout.specs.Layout.{slices_at, rows_at, tie_count_at, ties_at, set_length, width_of, taps_of, inversion_of, chains_of, spread_of, slices_of, value_at, mark_at, tie_count_of, tie_bytes, no_words};

// The places of the tap word, of the inversion word, of n and of the first spread word; m stands at place 0.
pub const TAPS_AT: usize = 2;

pub const INVERSION_AT: usize = 10;

pub const CHAINS_AT: usize = 18;

pub const SPREAD_AT: usize = 20;

// The place of the slice count, for n chains.
pub fn slices_at(n: u16) -> usize
    ensures { result ≡ slices_at n }
{
    let chains = n as usize;
    SPREAD_AT + 8 * chains
}

// The place of the first row, for n chains: as many bytes stand before it.
pub fn rows_at(n: u16) -> usize
    ensures { result ≡ rows_at n }
{
    slices_at(n) + 2
}

// The bytes of s rows of n chains. Counts of 2 bytes keep it small.
pub fn rows_length(n: u16, s: u16) -> usize
    ensures { (result ≡ row_bytes n * s) × (result ≤ 536870912) }
{
    let slices = s as usize;
    rows::row_bytes(n as usize) * slices
}

// The place of slice t's value row, for n chains.
pub fn value_at(n: u16, t: u16) -> usize
    ensures { result ≡ value_at n t }
{
    rows_at(n) + 2 * rows_length(n, t)
}

// The place of the count of ties, for n chains: behind the last of s slices.
pub fn tie_count_at(n: u16, s: u16) -> usize
    ensures { result ≡ tie_count_at n s }
{
    value_at(n, s)
}

// The place of the first entry of ties, for n chains and s slices.
pub fn ties_at(n: u16, s: u16) -> usize
    ensures { result ≡ ties_at n s }
{
    tie_count_at(n, s) + 2
}

// The bytes of a set of n chains, s slices and k entries of ties.
pub fn set_length(n: u16, s: u16, k: u16) -> usize
    ensures { result ≡ set_length n s k }
{
    let entries = k as usize;
    ties_at(n, s) + ties::ENTRY_BYTES * entries
}

// m, as the set gives it.
pub fn register_width(set: &[u8]) -> u64
    ensures { result ≡ width_of set.now }
{
    numbers::read_count(set, 0)
}

// The tap word, as the set gives it.
pub fn tap_word(set: &[u8]) -> u64
    ensures { result ≡ taps_of set.now }
{
    numbers::read_word(set, TAPS_AT)
}

// The inversion word, as the set gives it.
pub fn inversion_word(set: &[u8]) -> u64
    ensures { result ≡ inversion_of set.now }
{
    numbers::read_word(set, INVERSION_AT)
}

// n, as the set gives it.
pub fn chain_count(set: &[u8]) -> u16
    ensures { result ≡ chains_of set.now }
{
    numbers::read_count(set, CHAINS_AT) as u16
}

// s, as the set gives it.
pub fn slice_count(set: &[u8]) -> u16
    ensures { result ≡ slices_of set.now }
{
    numbers::read_count(set, slices_at(chain_count(set))) as u16
}

// The count of ties of a set of n chains and s slices, as the set gives it.
pub fn tie_count_of(set: &[u8], n: u16, s: u16) -> u16
    ensures { result ≡ count_at set.now (tie_count_at n s) }
{
    numbers::read_count(set, tie_count_at(n, s)) as u16
}

// The count of ties, as the set gives it.
pub fn tie_count(set: &[u8]) -> u16
    ensures { result ≡ tie_count_of set.now }
{
    let n = chain_count(set);
    let s = slice_count(set);
    tie_count_of(set, n, s)
}

// The entries of ties, without their count, as far as they are there: a part of the set itself.
pub fn tie_bytes(set: &[u8]) -> &[u8]
    ensures { result.now ≡ tie_bytes set.now }
{
    let n = chain_count(set);
    let s = slice_count(set);
    let entries = tie_count(set) as usize;
    numbers::part(set, ties_at(n, s), ties::ENTRY_BYTES * entries)
}

// The same as `spread_words`, for a set of at most 256 chains whose spread words are all there.
fn whole_spread_words(set: &[u8]) -> [u64; 256]
    requires { (chains_of set.now ≤ 256) × (slices_at (chains_of set.now) ≤ length set.now) }
    ensures { result ≡ front (take 256 (spread_of set.now)) no_words }
{
    let mut words = [0; 256];
    for c in 0..chain_count(set) as usize {
        words[c] = numbers::eight_bytes(set, SPREAD_AT + 8 * c);
    }
    words
}

// The same as `spread_words`, for every set.
fn spread_words_there(set: &[u8]) -> [u64; 256]
    ensures { result ≡ front (take 256 (spread_of set.now)) no_words }
{
    let mut words = [0; 256];
    let count = (chain_count(set) as usize).min(words.len());
    for c in 0..count {
        words[c] = numbers::read_word(set, SPREAD_AT + 8 * c);
    }
    words
}

// The first 256 spread words, as the set gives them, and zeros after them.
pub fn spread_words(set: &[u8]) -> [u64; 256]
    ensures { result ≡ front (take 256 (spread_of set.now)) no_words }
{
    let n = chain_count(set);
    if n as u64 <= register::Register::LARGEST_CHAINS && slices_at(n) <= set.len() {
        whole_spread_words(set)
    } else {
        spread_words_there(set)
    }
}

// The value rows of a set of n chains.
pub fn value_rows(n: u16) -> rows::Rows
    ensures { (result.at ≡ value_at n 0) × (result.stride ≡ 2 * row_bytes n) × (result.bytes ≡ row_bytes n) }
{
    let bytes = rows::row_bytes(n as usize) as u32;
    rows::Rows {
        at: rows_at(n) as u32,
        stride: 2 * bytes,
        bytes,
    }
}

// The rows of unknown marks of a set of n chains.
pub fn mark_rows(n: u16) -> rows::Rows
    ensures { (result.at ≡ mark_at n 0) × (result.stride ≡ 2 * row_bytes n) × (result.bytes ≡ row_bytes n) }
{
    let rows = value_rows(n);
    rows::Rows {
        at: rows.at + rows.bytes,
        stride: rows.stride,
        bytes: rows.bytes,
    }
}
