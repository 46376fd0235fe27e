// Rows of marks without the marks of some of the cells that ties name, copied out of the list in which the rows stand. It sees numbers, rows
// and ties; it knows no register and no file. Every function is total.
#![tactic(auto)]

ghost use Rattle.std.specs.Prelude.{◌≡◌, cond, ◌&&◌, ℕ, ◌<◌, ◌≤◌, eqb, get_or};
ghost use Rattle.rows.specs.Row.{row_bytes, cell};
ghost use Rattle.rows.specs.Lists.{list_row, cells_of};
ghost use Rattle.ties.specs.Ties.{ties_in};
ghost use Rattle.ties.specs.Symbols.{names, unmarked};

use rows::Rows;

// The rows of s slices of n chains, one after the other.
fn copy_rows(list: &[u8], marks: Rows, n: u16, s: u16) -> [u8; 16384]
    ensures { n ≤ 256 → s ≤ 512 → marks.bytes ≡ row_bytes n → (t c : ℕ) → t < s → cell (list_row n result t) c ≡ cells_of list.now marks t c }
{
    let bytes = rows::row_bytes(n as usize);
    let mut copy = [0; 16384];
    for t in 0..s {
        let row = rows::row_of(list, marks, t);
        written_numbers::write_bytes(&mut copy[..], bytes * (t as usize), row);
    }
    copy
}

// Clears the cell of slice t and chain c in rows of n chains, one after the other; nothing where they have no such cell.
fn clear_cell(copy: &mut [u8], n: u16, t: u16, c: u16)
    ensures { (u d : ℕ) → cell (list_row n copy.new u) d ≡ cond (eqb t u && eqb c d) 0 (cell (list_row n copy.old u) d) }
{
    let bytes = rows::row_bytes(n as usize);
    let byte = c as usize / 8;
    if bytes <= byte {
        return;
    }
    let at = bytes * (t as usize) + byte;
    if at < copy.len() {
        copy[at] &= !(1 << (c % 8));
    }
}

// Clears the cell that entry i names, where its flag is 0; an entry past the flags' end has flag 0.
fn clear_entry(copy: &mut [u8], n: u16, ties: &[u8], flags: &[u64], i: u16)
    ensures { (k u d : ℕ) → cell (list_row n copy.new u) d ≡ cond (names (ties_in ties.now k) i u d && eqb (get_or flags.now i 0) 0) 0 (cell (list_row n copy.old u) d) }
{
    let is_flagged = word::word_at(flags, i as usize) != 0;
    if !is_flagged {
        clear_cell(copy, n, ties::tie_slice(ties, i), ties::tie_chain(ties, i));
    }
}

// The rows of marks of s slices of n chains, one after the other, without the marks of the cells that the first `count` entries name whose
// flag is 0; an entry past the flags' end has flag 0. All rows are there up to 256 chains and 512 slices, and of more as far as 16,384 bytes
// go.
pub fn unmark(
    list: &[u8],
    marks: Rows,
    n: u16,
    s: u16,
    ties: &[u8],
    count: u16,
    flags: &[u64],
) -> [u8; 16384]
    ensures { n ≤ 256 → s ≤ 512 → marks.bytes ≡ row_bytes n → (t c : ℕ) → t < s → cell (list_row n result t) c ≡ unmarked (cells_of list.now marks) (ties_in ties.now count) flags.now t c }
{
    let mut copy = copy_rows(list, marks, n, s);
    for i in 0..count {
        clear_entry(&mut copy[..], n, ties, flags, i);
    }
    copy
}
