// What the set writer is handed, and the numbers that it meets with it: 2, 3, 25, 4, 6, 7, 8, 9, 10, 29, 30, 31 and 24. It sees rows, ties, the
// register's limits and where the parts of a set stand; it writes nothing. Every function is total.
#![tactic(auto)]

ghost use Rattle.std.specs.Prelude.{◌≡◌, not, ◌||◌, ◌*◌, ◌%◌, eqb, ltb, length};
ghost use Rattle.word.specs.Reply.{first_of};
ghost use Rattle.refusals.specs.Refusals.{refused};
ghost use Rattle.rows.specs.Row.{cell, row_bytes};
ghost use Rattle.rows.specs.Lists.{list_row, spare_in};
ghost use Rattle.ties.specs.Ties.{entry_bytes, most_ties, ties_in, tie_tests};
ghost use Rattle.set_layout.specs.Layout.{set_length};
ghost use Rattle.set_content.specs.Content.{set_content, set_write_tests};

use refusals::Refusal;
use rows::Rows;

// Number 8: whether the length of a list of rows isn't that of s rows of n chains.
fn are_bad_rows(n: u16, s: u16, values: &[u8], marks: &[u8]) -> bool
    ensures { result ≡ (not (eqb (length values.now) (row_bytes n * s)) || not (eqb (length marks.now) (row_bytes n * s))) }
{
    let bytes = set_layout::rows_length(n, s);
    (values.len() != bytes) | (marks.len() != bytes)
}

// Number 8: whether entries of ties aren't whole, or are more than 256.
fn are_bad_entries(ties: &[u8]) -> bool
    ensures { result ≡ (not (eqb (length ties.now % entry_bytes) 0) || ltb (entry_bytes * most_ties) (length ties.now)) }
{
    (ties.len() % ties::ENTRY_BYTES != 0)
        | (ties::ENTRY_BYTES * (ties::MOST_TIES as usize) < ties.len())
}

// Number 8: whether a list of rows or the entries of ties are bad.
fn are_bad_lists(n: u16, s: u16, values: &[u8], marks: &[u8], ties: &[u8]) -> bool
    ensures { result ≡ (not (eqb (length values.now) (row_bytes n * s)) || not (eqb (length marks.now) (row_bytes n * s)) || (not (eqb (length ties.now % entry_bytes) 0) || ltb (entry_bytes * most_ties) (length ties.now))) }
{
    are_bad_rows(n, s, values, marks) | are_bad_entries(ties)
}

// Number 9: whether one of the first s rows of either list has a spare bit set.
fn has_spare_list(n: usize, s: usize, values: &[u8], marks: &[u8]) -> bool
    ensures { result ≡ (spare_in n (list_row n values.now) s || spare_in n (list_row n marks.now) s) }
{
    rows::has_spare_row(n, values, s) | rows::has_spare_row(n, marks, s)
}

// Refuses the first `count` entries of ties, with the mark rows of s slices and n chains, by the first of 29, 30 and 31 that applies.
fn check_ties(ties: &[u8], count: u16, marks: &[u8], n: u16, s: u16) -> Result<(), Refusal>
    ensures { refused result ≡ first_of (tie_tests s n (λ t. cell (list_row n marks.now t)) (ties_in ties.now count)) }
{
    ties::check_ties(ties, count, marks, Rows::packed(n), n, s)
}

// Number 24: whether `room` bytes are too few for a set of n chains, s slices and `count` entries of ties.
fn lacks_room(room: usize, n: u16, s: u16, count: u16) -> bool
    ensures { result ≡ ltb room (set_length n s count) }
{
    room < set_layout::set_length(n, s, count)
}

// Refuses what the writer doesn't take, with an output of `room` bytes, by the first number that applies.
pub fn check_content(
    m: u64,
    taps: u64,
    inversion: u64,
    spread: &[u64],
    values: &[u8],
    marks: &[u8],
    s: u64,
    ties: &[u8],
    room: usize,
) -> Result<(), Refusal>
    ensures { refused result ≡ first_of (set_write_tests (set_content m taps inversion spread.now values.now marks.now s ties.now) room) }
{
    if word::is_bad_width(m) {
        return Err(Refusal::Width);
    }
    if register::is_bad_taps(m, taps) {
        return Err(Refusal::TapWord);
    }
    if word::is_beyond(m, inversion) {
        return Err(Refusal::InversionWord);
    }
    if register::is_bad_chains(spread.len() as u64) {
        return Err(Refusal::ChainCount);
    }
    if chains::is_bad_spread(m, spread) {
        return Err(Refusal::SpreadWord);
    }
    if register::is_bad_slices(s) {
        return Err(Refusal::SliceCount);
    }
    let n = spread.len() as u16;
    let slices = s as u16;
    if are_bad_lists(n, slices, values, marks, ties) {
        return Err(Refusal::Length);
    }
    if has_spare_list(n as usize, slices as usize, values, marks) {
        return Err(Refusal::SpareBit);
    }
    if rows::share_a_bit(values, marks) {
        return Err(Refusal::UnknownValue);
    }
    let count = (ties.len() / ties::ENTRY_BYTES) as u16;
    check_ties(ties, count, marks, n, slices)?;
    if lacks_room(room, n, slices, count) {
        return Err(Refusal::ShortOutput);
    }
    Ok(())
}
