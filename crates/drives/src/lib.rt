// What the chains drive in each slice of a response, for many slices: 64 chains at a time, by a table of what their cells' bytes
// drive. It sees rows and chains; it knows no register and no file. Every public function is total.
#![tactic(auto)]

ghost use Rattle.std.specs.Prelude.{◌≡◌, true, min, ◌+◌, ◌*◌, ◌≤◌, length};
ghost use Rattle.byte_tables.specs.Table.{looked};
ghost use Rattle.numbers.specs.Bytes.{word_at};
ghost use Rattle.drives.specs.Drives.{Added, marks_at, Drives};

use rows::Rows;

// The places of a list of drives: the largest number of slices.
pub const PLACES: usize = 512;

// XORs into each of the first s drives what the table gives for the 8 bytes of its slice's row from byte `from` on, by the row's part
// of the list. A byte past the row's end counts as 0.
fn add_of_any(drives: &mut [u64], table: &[u64; 2048], list: &[u8], rows: Rows, from: usize, s: u16)
    requires { s ≤ length drives.old }
    ensures { Added drives.old drives.new s (λ t. looked table.now (marks_at list.now rows from t) 8) }
{
    for t in 0..s {
        let marks = numbers::read_word(rows::row_of(list, rows, t), from);
        drives[t as usize] ^= byte_tables::looked_up(table, marks);
    }
}

// The same for 8 bytes that are all there: those of the first slice stand at place `at`, and those of each slice `stride` bytes after
// those of the slice before.
fn add_of_whole(
    drives: &mut [u64],
    table: &[u64; 2048],
    list: &[u8],
    at: usize,
    stride: u32,
    s: u16,
)
    requires { (s ≤ length drives.old) × (at + stride * s + 8 ≤ length list.now + stride) }
    ensures { Added drives.old drives.new s (λ t. looked table.now (word_at list.now (at + stride * t)) 8) }
{
    for t in 0..s as usize {
        let marks = numbers::eight_bytes(list, at + stride as usize * t);
        drives[t] ^= byte_tables::looked_up(table, marks);
    }
}

// Whether the 8 bytes from byte `from` on are there in each of the first s rows.
fn are_whole(list: &[u8], rows: Rows, from: usize, s: u16) -> bool
    ensures { result ≡ true → (from + 8 ≤ rows.bytes) × (rows.at + from + rows.stride * s + 8 ≤ length list.now + rows.stride) }
{
    let bytes = rows.bytes as usize;
    if bytes < 8 {
        return false;
    }
    let is_past = bytes - 8 < from;
    if is_past {
        return false;
    }
    let stride = rows.stride as usize;
    let end = rows.at as usize + from + stride * (s as usize);
    end + 8 <= list.len() + stride
}

// XORs into each of the first s drives what the table gives for the 8 bytes of its slice's row from byte `from` on.
fn add_looked(drives: &mut [u64], table: &[u64; 2048], list: &[u8], rows: Rows, from: usize, s: u16)
    requires { s ≤ length drives.old }
    ensures { Added drives.old drives.new s (λ t. looked table.now (marks_at list.now rows from t) 8) }
{
    if are_whole(list, rows, from, s) {
        add_of_whole(drives, table, list, rows.at as usize + from, rows.stride, s);
    } else {
        add_of_any(drives, table, list, rows, from, s);
    }
}

// What the chains drive in each of the first s slices, 512 at most, by the spread words of 64 chains after the other: the table of their
// bytes' drives is made, and each slice's cells are looked up in it. A table takes as many instructions as 190 slices.
pub fn slice_drives(spread: &[u64], list: &[u8], rows: Rows, s: u16) -> [u64; PLACES]
    ensures { Drives spread.now list.now rows (min s 512) result }
{
    let count = s.min(PLACES as u16);
    let mut drives = [0; PLACES];
    let mut table = [0; 2048];
    for (g, words) in spread.chunks(64).enumerate() {
        byte_tables::fill_table(&mut table[..], words);
        add_looked(&mut drives[..], &table, list, rows, 8 * g, count);
    }
    drives
}
