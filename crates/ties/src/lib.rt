// Ties: entries in a list of bytes, each the slice, the chain and the symbol number of an unknown cell and its side, and the tests of such a
// list, 29 to 31. It sees numbers and rows; it knows no file. Every function is total; a byte past the end counts as 0.
#![tactic(auto)]

ghost use Rattle.std.specs.Prelude.{◌≡◌, ℕ, ◌+◌, ◌*◌, get_or};
ghost use Rattle.word.specs.Reply.{first_of};
ghost use Rattle.refusals.specs.Refusals.{refused};
ghost use Rattle.numbers.specs.Bytes.{count_at};
ghost use Rattle.rows.specs.Lists.{cells_of};
ghost use Rattle.ties.specs.Ties.{entry_bytes, ties_in, wrong_cell, wrong_cells, precedes, wrong_order, wrong_sides, tie_tests};

use refusals::Refusal;
use rows::Rows;

// The bytes of an entry, and the most entries that a set has. Entries go as a list of bytes and how many count, two parameters. No plainer as
// one value: a clause would say `ties_in ties.entry.bytes.now ties.entry.count` in place of `ties_in ties.now count`.
pub const ENTRY_BYTES: usize = 7;

pub const MOST_TIES: u16 = 256;

// The place of entry i.
fn entry_at(i: u16) -> usize
    ensures { result ≡ entry_bytes * i }
{
    ENTRY_BYTES * (i as usize)
}

// The slice of entry i's cell.
pub fn tie_slice(ties: &[u8], i: u16) -> u16
    ensures { result ≡ count_at ties.now (entry_bytes * i) }
{
    numbers::read_count(ties, entry_at(i)) as u16
}

// The chain of entry i's cell.
pub fn tie_chain(ties: &[u8], i: u16) -> u16
    ensures { result ≡ count_at ties.now (entry_bytes * i + 2) }
{
    numbers::read_count(ties, entry_at(i) + 2) as u16
}

// Entry i's symbol number.
pub fn tie_symbol(ties: &[u8], i: u16) -> u16
    ensures { result ≡ count_at ties.now (entry_bytes * i + 4) }
{
    numbers::read_count(ties, entry_at(i) + 4) as u16
}

// Entry i's side: 0 where its cell takes the symbol's value as is, 1 where it takes the opposite.
pub fn tie_side(ties: &[u8], i: u16) -> u8
    ensures { result ≡ get_or ties.now (entry_bytes * i + 6) 0 }
{
    numbers::byte_at(ties, entry_at(i) + 6)
}

// Whether entry i names a cell that isn't there, with s slices and n chains, or isn't unknown: the rows `marks` of the list mark those that
// are.
fn is_wrong_cell(ties: &[u8], i: u16, list: &[u8], marks: Rows, n: u16, s: u16) -> bool
    ensures { (k : ℕ) → result ≡ wrong_cell s n (cells_of list.now marks) (ties_in ties.now k) i }
{
    let t = tie_slice(ties, i);
    let c = tie_chain(ties, i);
    let mark = rows::cell_at(rows::row_of(list, marks, t), c as usize);
    !((t < s) & ((c < n) & (mark == 1)))
}

// Number 29: whether one of the first `count` entries names a cell that isn't there, with s slices and n chains, or isn't unknown: the rows
// `marks` of the list mark those that are.
pub fn has_wrong_cells(ties: &[u8], count: u16, list: &[u8], marks: Rows, n: u16, s: u16) -> bool
    ensures { result ≡ wrong_cells s n (cells_of list.now marks) (ties_in ties.now count) }
{
    (0..count).any(|i| is_wrong_cell(ties, i, list, marks, n, s))
}

// Whether entry i comes before the next one, entry j, by slice and then by chain.
fn precedes_next(ties: &[u8], i: u16, j: u16) -> bool
    ensures { (k : ℕ) → j ≡ i + 1 → result ≡ precedes (ties_in ties.now k) i }
{
    let t = tie_slice(ties, i);
    let next = tie_slice(ties, j);
    let c = tie_chain(ties, i);
    (t < next) | ((t == next) & (c < tie_chain(ties, j)))
}

// Number 30: whether the first `count` entries don't ascend strictly, by slice and then by chain.
pub fn has_wrong_order(ties: &[u8], count: u16) -> bool
    ensures { result ≡ wrong_order (ties_in ties.now count) }
{
    (0..count.saturating_sub(1)).any(|i| !precedes_next(ties, i, i + 1))
}

// Number 31: whether one of the first `count` entries has a last byte above 1.
pub fn has_wrong_sides(ties: &[u8], count: u16) -> bool
    ensures { result ≡ wrong_sides (ties_in ties.now count) }
{
    (0..count).any(|i| 1 < tie_side(ties, i))
}

// Refuses the first `count` entries, with s slices and n chains, by the first of 29, 30 and 31 that applies. The rows `marks` of the list mark
// the unknown cells.
pub fn check_ties(
    ties: &[u8],
    count: u16,
    list: &[u8],
    marks: Rows,
    n: u16,
    s: u16,
) -> Result<(), Refusal>
    ensures { refused result ≡ first_of (tie_tests s n (cells_of list.now marks) (ties_in ties.now count)) }
{
    if count == 0 {
        return Ok(());
    }
    if has_wrong_cells(ties, count, list, marks, n, s) {
        return Err(Refusal::TieCell);
    }
    if has_wrong_order(ties, count) {
        return Err(Refusal::TieOrder);
    }
    if has_wrong_sides(ties, count) {
        return Err(Refusal::TieSide);
    }
    Ok(())
}
