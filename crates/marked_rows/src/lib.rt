// The marked cells of rows: how many there are, and the last row that has any. It sees words, numbers and rows; it knows no register and no
// file. Every function is total.
#![tactic(auto)]

ghost use Rattle.std.specs.Prelude.{◌≡◌, true, List, ℕ, ◌+◌, ◌-◌, ◌*◌, ◌≤◌, ◌<◌, length, take, drop};
ghost use Rattle.std.specs.Int.Count.{ones};
ghost use Rattle.rows.specs.Row.{cell};
ghost use Rattle.rows.specs.Lists.{cells_of};
ghost use Rattle.rows.specs.declared.Rows.{Rows};
ghost use Rattle.rows.specs.Marks.{total};
ghost use Rattle.marked_rows.specs.Last.{last_marked, last_count};
ghost use Rattle.marked_rows.specs.Estimate.{estimate};

use rows::Rows;

// The last marked row among some: how many rows there are up to it and with it, 0 where none is marked, and how many cells it marks. No plainer as
// an Option: a caller goes on with the first t rows, of which there may be none.
#[derive(Drop)]
pub struct Marked {
    pub t: u16,
    pub count: u64,
}

// How many bits of four words are 1; where none is, it is known by one test.
fn count_words(a: u64, b: u64, c: u64, d: u64) -> u64
    ensures { result ≡ ones a + ones b + ones c + ones d }
{
    let is_marked = (0 < a) | (0 < b) | (0 < c) | (0 < d);
    if is_marked {
        return u64::from(a.count_ones() + b.count_ones() + c.count_ones() + d.count_ones());
    }
    0
}

// The number of cells among the first 256 of a row that are 1, by words of 64 cells. The hints keep this a call, and the finding of the row in its
// caller's loop: with both in one function listing and words of 8 chains without an unknown cell take a quarter more time.
#[inline(never)]
fn count_cells(row: &[u8]) -> u64
    ensures { result ≡ total 256 (cell row.now) }
{
    let a = numbers::read_word(row, 0);
    let b = numbers::read_word(row, 8);
    let c = numbers::read_word(row, 16);
    let d = numbers::read_word(row, 24);
    count_words(a, b, c, d)
}

// The number of marked cells of row t.
#[inline(always)]
fn count_row(list: &[u8], rows: Rows, t: u16) -> u64
    ensures { result ≡ total 256 (cells_of list.now rows t) }
{
    count_cells(rows::row_of(list, rows, t))
}

// The same where row t is of 32 bytes and all there.
fn count_32(list: &[u8], rows: Rows, t: u16) -> u64
    requires { (rows.bytes ≡ 32) × (rows.at + rows.stride * t + 32 ≤ length list.now) }
    ensures { result ≡ total 256 (cells_of list.now rows t) }
{
    let at = rows.at as usize + (rows.stride as usize) * (t as usize);
    let a = numbers::eight_bytes(list, at);
    let b = numbers::eight_bytes(list, at + 8);
    let c = numbers::eight_bytes(list, at + 16);
    let d = numbers::eight_bytes(list, at + 24);
    count_words(a, b, c, d)
}

// The last marked row among the first t, where `count_of` gives the number of a row's marked cells.
fn last_by<F: Fn(u16) -> u64>(t: u16, count_of: F) -> Marked
    requires { (row : ℕ) → row < t → F.pre count_of row }
    ensures { (l : List ℕ) (r : Rows) → ((row n : ℕ) → row < t → F.post count_of row n → n ≡ total 256 (cells_of l r row)) → (result.t ≡ last_marked l r t) × (result.count ≡ last_count l r t) }
{
    for row in (0..t).rev() {
        let count = count_of(row);
        if count != 0 {
            return Marked { t: row + 1, count };
        }
    }
    Marked { t: 0, count: 0 }
}

// Whether the first t rows are of 32 bytes and all there. The four private functions that ask for it say so. No plainer as a type: it would hold the
// list, and their clauses would read `rows.entry.list.now` for it.
pub fn are_whole_32(list: &[u8], rows: Rows, t: u16) -> bool
    ensures { result ≡ true → (rows.bytes ≡ 32) × (rows.at + rows.stride * t + 32 ≤ length list.now + rows.stride) }
{
    let stride = rows.stride as usize;
    let end = rows.at as usize + stride * (t as usize);
    (rows.bytes == 32) & (end + 32 <= list.len() + stride)
}

// The last marked row among the first t: 256 cells of each count. A row past the end has no mark.
pub fn last_marked(list: &[u8], rows: Rows, t: u16) -> Marked
    ensures { (result.t ≡ last_marked list.now rows t) × (result.count ≡ last_count list.now rows t) }
{
    if are_whole_32(list, rows, t) {
        return last_by(t, |row| count_32(list, rows, row));
    }
    last_by(t, |row| count_row(list, rows, row))
}

// How many of the first t rows there are up to the last marked one; 0 where none is marked.
pub fn marked_end(list: &[u8], rows: Rows, t: u16) -> u16
    ensures { result ≡ last_marked list.now rows t }
{
    let last = last_marked(list, rows, t);
    last.t
}

// The number of marked cells among the first 256 of each of s rows. It meets no number: a row past the end has no mark.
pub fn count_marks(list: &[u8], rows: Rows, s: u16) -> u64
    ensures { result ≡ total s (λ t. total 256 (cells_of list.now rows t)) }
{
    if are_whole_32(list, rows, s) {
        return (0..s).map(|row| count_32(list, rows, row)).sum();
    }
    (0..s).map(|row| count_row(list, rows, row)).sum()
}

// About how many cells among the first 256 of each of s rows are marked: from 64 rows on every eighth row is counted for eight. It is for
// choosing between ways that answer alike.
pub fn estimate_marks(list: &[u8], rows: Rows, s: u16) -> u64
    ensures { result ≡ estimate list.now rows s }
{
    let stride = rows.stride;
    if (s < 64) | (65536 <= stride) {
        return count_marks(list, rows, s);
    }
    let eighth = Rows {
        at: rows.at,
        stride: 8 * stride,
        bytes: rows.bytes,
    };
    8 * count_marks(list, eighth, s / 8)
}
