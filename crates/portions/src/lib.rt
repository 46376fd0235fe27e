// The columns of marked cells in portions: as many of the last ones as a list has room for, then as many of those before them, and so on. It
// sees the register's powers, the table of 8 clocks and the marked words of a row; it knows no file. Every function is total.
#![tactic(auto)]

ghost use Rattle.std.specs.Prelude.{◌≡◌, cond, List, ◌++◌, map, ℕ, ◌-◌, ◌%◌, ◌≤◌, ◌<◌, min, eqb, length, take, drop};
ghost use Rattle.rows.specs.Lists.{cells_of};
ghost use Rattle.eight_clocks.specs.Eight.{looked_on};
ghost use Rattle.signatures.specs.Columns.{slice_columns};
ghost use Rattle.portions.specs.Portions.{wiring, slices_in, Ready, RowLater, SliceDone, RowFits, PortionFrom};

use marked_words::Fitted;
use register::Register;
use rows::Rows;

// Where marked cells come from: the register that their chains drive, the rows of marks and how many slices there are. The list goes beside it, as it
// goes beside `Rows`.
#[derive(Clone, Copy)]
pub struct Source {
    pub register: Register,
    pub marks: Rows,
    pub s: u16,
}

// Which columns are left: those of the first t slices, but that in the last of these only the first `chains` chains are left. In the list
// of a portion it stands from `place` on.
#[derive(Drop)]
pub struct Portion {
    pub t: u16,
    pub chains: usize,
    pub place: usize,
}

// The entries of the table of 8 clocks (`eight_clocks::eight_on`). A list of so many is that table, a longer one the register's powers.
const TABLE_ENTRIES: usize = 256;

// The chains' words for the slice before one of which so many clocks are left: where these are one short of whole eights, the words are
// advanced 8 clocks, by the table.
fn pass_slice(m: u64, table: &[u64], clocks: usize, words: &mut [u64])
    ensures { 256 ≤ length table.now → words.new ≡ cond (eqb (clocks % 8) 7) (map (looked_on (min m 64) table.now 8) words.old) words.old }
{
    let is_eighth = clocks % 8 == 7;
    if is_eighth {
        eight_clocks::look_eight(m, table, words);
    }
}

// The last of the first t slices is done. Makes the words those for the slice before it: by one clock with all cells 0 and no inversion, or by 8
// where it is the last of eight. With the powers it passes over slices without a marked cell. Answers with how many slices are left.
fn go_down(source: Source, list: &[u8], powers: &[u64], words: &mut [u64], t: u16) -> u16
    requires { 0 < t }
    ensures { SliceDone (min source.register.m 64) source.register.taps (slices_in source) list.now source.marks powers.now t words.old words.new result }
{
    let count = powers.len();
    let is_over = TABLE_ENTRIES < count;
    if is_over {
        let marks = source.marks;
        return marked_rows::marked_end(list, marks, t - 1);
    }
    let register = source.register;
    if count < TABLE_ENTRIES {
        powers::advance_words(register, words);
        return t - 1;
    }
    let clocks = register::slice_limit(source.s).saturating_sub(t) as usize;
    pass_slice(register.m, powers, clocks, words);
    t - 1
}

// Puts for each word of a row's marked cells what it is at the end, so many clocks later: by the clocks that are left over from whole eights where
// there is the table, by the powers where there are these.
fn put_later(powers: &[u64], clocks: usize, m: u64, words: &mut [u64])
    ensures { RowLater powers.now clocks (min m 64) words.old words.new }
{
    let count = powers.len();
    if count == 0 {
        return;
    }
    if count == TABLE_ENTRIES {
        eight_clocks::look_few(m, clocks, powers, words);
        return;
    }
    let width = register::width_limit(m) as usize;
    if count < clocks {
        return;
    }
    if count - clocks < width {
        return;
    }
    let end = clocks + width;
    powers::power_words(&powers[clocks..end], words);
}

// Writes the columns of the last of the first t slices over the end of the list, as far as there is room, for as many chains as there are
// words.
fn fill_row(
    source: Source,
    list: &[u8],
    powers: &[u64],
    words: &[u64],
    columns: &mut [u64],
    t: u16,
) -> Fitted
    requires { 0 < t }
    ensures fits { RowFits (length words.now) columns.old columns.new result }
    ensures row { (spread ws : List ℕ) → length words.now ≤ length spread → words.now ≡ take (length words.now) ws → Ready (wiring source spread) (slices_in source) t powers.now ws → slice_columns (wiring source spread) (slices_in source) (cells_of list.now source.marks) (t - 1) (length words.now) ≡ slice_columns (wiring source spread) (slices_in source) (cells_of list.now source.marks) (t - 1) result.chains ++ drop result.place columns.new }
{
    let register = source.register;
    let marks = source.marks;
    let m = register.m;
    let row = rows::row_of(list, marks, t - 1);
    let fitted = marked_words::list_fitting(columns, words, row);
    let slices = register::slice_limit(source.s);
    let later = slices.saturating_sub(t);
    put_later(powers, later as usize, m, &mut columns[fitted.place..]);
    fitted
}

// Writes the last of the columns that are left over the end of the list, as many as there is room for, and answers with which are left
// then. The words are those of the chains. With the register's powers, 576 of them, these are the spread words, which stay as they are; with the
// table of 8 clocks the spread words advanced by 8 clocks for every eight slices after the first t; with an empty list the spread words
// advanced once for each of these slices. With 64 places, and at most 256 chains, fewer cells are left then. It meets no
// number: a width counts as at most 64, the slices as at most 512, and a row past the end has no mark.
pub fn fill_portion(
    source: Source,
    list: &[u8],
    powers: &[u64],
    words: &mut [u64],
    columns: &mut [u64],
    from: Portion,
) -> Portion
    ensures { PortionFrom source list.now powers.now from words.old words.new columns.old columns.new result }
{
    let all = words.len();
    let limit = from.chains.min(all);
    if from.t == 0 {
        return Portion {
            t: 0,
            chains: limit,
            place: columns.len(),
        };
    }
    let first = fill_row(source, list, powers, &words[..limit], columns, from.t);
    let mut t = from.t;
    let mut place = first.place;
    let mut chains = first.chains;
    // no plainer: it steps by what the row before leaves
    while chains == 0 {
        t = go_down(source, list, powers, words, t);
        chains = all;
        if t == 0 {
            return Portion { t, chains, place };
        }
        let next = fill_row(source, list, powers, words, &mut columns[..place], t);
        place = next.place;
        chains = next.chains;
    }
    Portion { t, chains, place }
}
