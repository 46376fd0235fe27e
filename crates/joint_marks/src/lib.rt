// Joint marks: the marks of some rows together, as one row of 256 cells. It sees numbers and rows; it knows no register and no file. Every
// function is total.
#![tactic(auto)]

ghost use Rattle.std.specs.Prelude.{◌≡◌, ℕ, ◌+◌, ◌*◌, ◌≤◌, ◌<◌, length, get_or};
ghost use Rattle.std.specs.Int.Bits.{bit_or};
ghost use Rattle.rows.specs.Row.{cell};
ghost use Rattle.numbers.specs.Bytes.{word_at};
ghost use Rattle.joint_marks.specs.Joint.{without, joint_marks, UnmarkedWords};

use rows::Rows;

// Puts a row's marks to those that are there.
fn add_row(all: &mut [u8; 32], row: &[u8])
    ensures { (i : ℕ) → i < 32 → get_or all.new i 0 ≡ bit_or (get_or all.old i 0) (get_or row.now i 0) }
{
    for i in 0..row.len().min(32) {
        all[i] |= row[i];
    }
}

// The marks of the first t rows together, by each row's part of the list.
fn joint_of_any(list: &[u8], rows: Rows, t: u16) -> [u8; 32]
    ensures { (c : ℕ) → c < 256 → cell result c ≡ joint_marks list.now rows t c }
{
    let mut all = [0u8; 32];
    for j in 0..t {
        add_row(&mut all, rows::row_of(list, rows, j));
    }
    all
}

// Takes the cells that a row of 32 bytes at place `at`, all of which are there, marks out of four words of 64. Unmarked cells are gathered
// because an OR of marks would be taken apart into ORs of bytes by the compiler, which then reads the row byte by byte.
fn take_out_row(cells: &mut [u64; 4], list: &[u8], at: usize)
    requires { at + 32 ≤ length list.now }
    ensures { (i : ℕ) → i < 4 → get_or cells.new i 0 ≡ without (get_or cells.old i 0) (word_at list.now (at + 8 * i)) }
{
    for (i, word) in cells.iter_mut().enumerate() {
        *word &= !numbers::eight_bytes(list, at + 8 * i);
    }
}

// The cells that none of the first t rows marks as four words of 64, for rows of 32 bytes that are all there.
fn unmarked_words(list: &[u8], rows: Rows, t: u16) -> [u64; 4]
    requires { (rows.bytes ≡ 32) × (rows.at + rows.stride * t + 32 ≤ length list.now + rows.stride) }
    ensures { UnmarkedWords list.now rows t result }
{
    let first = rows.at as usize;
    let stride = rows.stride as usize;
    let mut cells = [u64::MAX; 4];
    for j in 0..t {
        take_out_row(&mut cells, list, first + stride * (j as usize));
    }
    cells
}

// The same as `joint_of_any` for rows of 32 bytes that are all there.
fn joint_of_32(list: &[u8], rows: Rows, t: u16) -> [u8; 32]
    requires { (rows.bytes ≡ 32) × (rows.at + rows.stride * t + 32 ≤ length list.now + rows.stride) }
    ensures { (c : ℕ) → c < 256 → cell result c ≡ joint_marks list.now rows t c }
{
    let marked = unmarked_words(list, rows, t).map(|cells| !cells);
    let mut all = [0u8; 32];
    written_numbers::write_words(&mut all, 0, &marked);
    all
}

// The marks of the first t rows together, of 256 chains. A row past the end has no mark.
pub fn joint_marks(list: &[u8], rows: Rows, t: u16) -> [u8; 32]
    ensures { (c : ℕ) → c < 256 → cell result c ≡ joint_marks list.now rows t c }
{
    if marked_rows::are_whole_32(list, rows, t) {
        return joint_of_32(list, rows, t);
    }
    joint_of_any(list, rows, t)
}
