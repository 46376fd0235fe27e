// The set file of document 01: the tests of its parts, 1 to 10, 25 and 29 to 31, and its reader. It sees where the parts stand (`set_layout`); the
// rows of one slice and the writer are crates above it. Every public function is total.
#![tactic(auto)]

ghost use Rattle.std.specs.Prelude.{◌≡◌, false, not, ◌||◌, ◌≤◌, eqb, ltb, length, IfOk};
ghost use Rattle.word.specs.Word.{bad_width};
ghost use Rattle.word.specs.Reply.{first_of};
ghost use Rattle.refusals.specs.Refusals.{refused};
ghost use Rattle.ties.specs.Ties.{most_ties, ties_in, tie_tests};
ghost use Rattle.register.specs.Circuit.{bad_taps, bad_inversion, bad_chains};
ghost use Rattle.chains.specs.Driven.{bad_spread};
ghost use Rattle.set_layout.specs.Layout.{chains_at, spread_at, slices_at, set_length, width_of, taps_of, inversion_of, chains_of, spread_of, slices_of, marks, tie_bytes};
ghost use Rattle.set_file.specs.Reading.{bad_slices, wrong_length, spare_in_rows, valued_in_rows, set_tests, set_reply, spread_beside, said, words_beside, start_of, TakenFrom};

use refusals::Refusal;
use register::Register;

// A taken set, which is what the set reader answers: the register of the set's width m, tap word and inversion word, fresh, n and s, and 256
// spread words, zero from n on.
//
// That it is a file's own (TakenFrom) is a condition of the contracts, and no ghost field, since `kept_words::fill_words` and
// `expectation::expected_bits` take any of these beside any bytes, and may not ask for more.
#[derive(Clone, Copy)]
pub struct Taken {
    pub register: Register,
    pub n: u16,
    pub s: u16,
    pub spread: [u64; 256],
}

// Number 1: whether the set ends before its chain count.
fn is_short(set: &[u8]) -> bool
    ensures { result ≡ ltb (length set.now) chains_at }
{
    set.len() < set_layout::CHAINS_AT
}

// Number 2: whether m isn't 1 to 64.
fn has_bad_width(set: &[u8]) -> bool
    ensures { result ≡ bad_width (width_of set.now) }
{
    word::is_bad_width(set_layout::register_width(set))
}

// Number 3: whether the tap word has bit 0 clear or a bit at or above m.
fn has_bad_taps(set: &[u8]) -> bool
    ensures { result ≡ bad_taps (width_of set.now) (taps_of set.now) }
{
    register::is_bad_taps(set_layout::register_width(set), set_layout::tap_word(set))
}

// Number 25: whether the inversion word has a bit at or above m.
fn has_bad_inversion(set: &[u8]) -> bool
    ensures { result ≡ bad_inversion (width_of set.now) (inversion_of set.now) }
{
    word::is_beyond(
        set_layout::register_width(set),
        set_layout::inversion_word(set),
    )
}

// Number 4: whether the chain count is absent or isn't 1 to 256.
fn has_bad_chains(set: &[u8]) -> bool
    ensures { result ≡ (ltb (length set.now) spread_at || bad_chains (chains_of set.now)) }
{
    (set.len() < set_layout::SPREAD_AT)
        | register::is_bad_chains(set_layout::chain_count(set) as u64)
}

// Number 5: whether the set ends before the last spread word.
fn ends_in_spread(set: &[u8]) -> bool
    ensures { result ≡ ltb (length set.now) (slices_at (chains_of set.now)) }
{
    set.len() < set_layout::slices_at(set_layout::chain_count(set))
}

// Number 6, for a set that doesn't end before its last spread word: whether a spread word is zero or has a bit at or above m. The words
// are looked at together: one has a bit there exactly when the OR of all has.
fn has_bad_spread(set: &[u8]) -> bool
    requires { slices_at (chains_of set.now) ≤ length set.now }
    ensures { result ≡ bad_spread (width_of set.now) (spread_of set.now) }
{
    let m = set_layout::register_width(set);
    let n = set_layout::chain_count(set);
    let mut seen = 0u64;
    let mut none = false;
    for c in 0..n {
        let chain = c as usize;
        let w = numbers::eight_bytes(set, set_layout::SPREAD_AT + 8 * chain);
        seen |= w;
        none |= w == 0;
    }
    none | word::is_beyond(m, seen)
}

// Number 7: whether the slice count is absent or above 512.
fn has_bad_slices(set: &[u8]) -> bool
    ensures { result ≡ bad_slices set.now }
{
    (set.len() < set_layout::rows_at(set_layout::chain_count(set)))
        | register::is_bad_slices(set_layout::slice_count(set) as u64)
}

// Number 8, for n chains, s slices and `count` ties: whether that count is above 256, or the set's length isn't what the counts give.
fn has_wrong_length(set: &[u8], n: u16, s: u16, count: u16) -> bool
    ensures { result ≡ (ltb most_ties count || not (eqb (length set.now) (set_length n s count))) }
{
    (ties::MOST_TIES < count) | (set.len() != set_layout::set_length(n, s, count))
}

// Number 9: whether a row of the set has a spare bit set.
fn has_spare_bits(set: &[u8]) -> bool
    ensures { result ≡ spare_in_rows set.now }
{
    let n = set_layout::chain_count(set);
    let rows = 2 * (set_layout::slice_count(set) as usize);
    let at = set_layout::rows_at(n);
    if set.len() < at {
        return false;
    }
    rows::has_spare_row(n as usize, &set[at..], rows)
}

// The same as `has_valued_unknown`, for rows of any length. Whole bytes are compared.
fn finds_valued_unknown(set: &[u8]) -> bool
    ensures { wrong_length set.now ≡ false → spare_in_rows set.now ≡ false → result ≡ valued_in_rows set.now }
{
    let n = set_layout::chain_count(set);
    let s = set_layout::slice_count(set);
    let bytes = rows::row_bytes(n as usize);
    let mut at = set_layout::rows_at(n);
    // slower: with two `row_of` for each slice, rows of 1 to 31 bytes take two to four times as long
    for _t in 0..s {
        let mark = at + bytes;
        let end = mark + bytes;
        if set.len() < end {
            return false;
        }
        if rows::share_a_bit(&set[at..mark], &set[mark..end]) {
            return true;
        }
        at = end;
    }
    false
}

// Number 10, for a set of the right length in which no spare bit is set: whether an unknown cell has its value bit set. Rows of 32
// bytes are compared by words.
fn has_valued_unknown(set: &[u8]) -> bool
    ensures { wrong_length set.now ≡ false → spare_in_rows set.now ≡ false → result ≡ valued_in_rows set.now }
{
    let n = set_layout::chain_count(set);
    let s = set_layout::slice_count(set);
    let at = set_layout::rows_at(n);
    let end = at + 64 * s as usize;
    if rows::row_bytes(n as usize) == 32 && end <= set.len() {
        return rows::pairs_share_a_bit(set, at, s);
    }
    finds_valued_unknown(set)
}

// Refuses the set's first `count` ties by the first of 29, 30 and 31 that applies. A set without an entry is done at once.
fn check_ties(set: &[u8], count: u16) -> Result<(), Refusal>
    ensures { refused result ≡ first_of (tie_tests (slices_of set.now) (chains_of set.now) (marks set.now) (ties_in (tie_bytes set.now) count)) }
{
    if count == 0 {
        return Ok(());
    }
    let n = set_layout::chain_count(set);
    let s = set_layout::slice_count(set);
    ties::check_ties(
        set_layout::tie_bytes(set),
        count,
        set,
        set_layout::mark_rows(n),
        n,
        s,
    )
}

// Refuses the set by the first number that applies.
pub fn check_set(set: &[u8]) -> Result<(), Refusal>
    ensures { refused result ≡ first_of (set_tests set.now) }
{
    if is_short(set) {
        return Err(Refusal::ShortSet);
    }
    if has_bad_width(set) {
        return Err(Refusal::Width);
    }
    if has_bad_taps(set) {
        return Err(Refusal::TapWord);
    }
    if has_bad_inversion(set) {
        return Err(Refusal::InversionWord);
    }
    if has_bad_chains(set) {
        return Err(Refusal::ChainCount);
    }
    if ends_in_spread(set) {
        return Err(Refusal::SpreadWordsCut);
    }
    if has_bad_spread(set) {
        return Err(Refusal::SpreadWord);
    }
    if has_bad_slices(set) {
        return Err(Refusal::SliceCount);
    }
    let n = set_layout::chain_count(set);
    let s = set_layout::slice_count(set);
    let count = set_layout::tie_count_of(set, n, s);
    if has_wrong_length(set, n, s, count) {
        return Err(Refusal::Length);
    }
    if has_spare_bits(set) {
        return Err(Refusal::SpareBit);
    }
    if has_valued_unknown(set) {
        return Err(Refusal::UnknownValue);
    }
    check_ties(set, count)
}

// The set reader: the fresh register of m, the tap word and the inversion word, n, s and the spread words. It meets 1, 2, 3, 25,
// 4 to 10 and 29 to 31, in that order; a refusal has no spread words, which is what C sees as zeros.
pub fn read_set(set: &[u8]) -> Result<Taken, Refusal>
    ensures answer { said result ≡ set_reply set.now }
    ensures spread { words_beside result ≡ spread_beside set.now }
    ensures start { start_of result ≡ 0 }
    ensures taken { IfOk result (TakenFrom set.now) }
{
    check_set(set)?;
    let register = Register::fresh(
        set_layout::register_width(set),
        set_layout::tap_word(set),
        set_layout::inversion_word(set),
    );
    Ok(Taken {
        register,
        n: set_layout::chain_count(set),
        s: set_layout::slice_count(set),
        spread: set_layout::spread_words(set),
    })
}
