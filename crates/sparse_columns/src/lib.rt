// Columns one by one, by the powers of the register: for few of them, each is made from its chain's spread word. It sees the register's
// powers, the marked words of a row and a taken set.
#![tactic(auto)]

ghost use Rattle.std.specs.Prelude.{◌≡◌, false, not, ◌||◌, min, take};
ghost use Rattle.rows.specs.Lists.{cells_of};
ghost use Rattle.marked_words.specs.Back.{back};
ghost use Rattle.chains.specs.Driven.{bad_spread};
ghost use Rattle.set_file.specs.Reading.{taken_circuit};
ghost use Rattle.signatures.specs.Columns.{columns_below};
ghost use Rattle.sparse_columns.specs.Cost.{ones_pay};

use rows::Rows;
use set_file::Taken;

// Writes the columns over the end of the list. It goes from the last slice with a marked cell to the one before it, and makes the columns of a
// slice from the spread words of its marked cells by the powers of the register.
fn fill_sparse(taken: Taken, list: &[u8], marks: Rows, columns: &mut [u64])
    requires { bad_spread (min taken.register.m 64) (take taken.n taken.spread) ≡ false }
    ensures { columns.new ≡ back (columns_below (taken_circuit taken) (min taken.s 512) (cells_of list.now marks) (min taken.s 512)) columns.old }
{
    let register = taken.register;
    let width = register::width_limit(register.m) as usize;
    let words = &taken.spread[..register::chain_limit(taken.n)];
    let slices = register::slice_limit(taken.s);
    let table = powers::powers(register, slices as usize + width);
    let mut place = columns.len();
    let mut end = marked_rows::marked_end(list, marks, slices);
    // no plainer: it steps to the slice that `marked_end` finds, not to the one before.
    while 0 < end {
        let t = end - 1;
        let row = rows::row_of(list, marks, t);
        let start = marked_words::list_row(&mut columns[..place], words, row);
        let from = (slices - 1 - t) as usize;
        powers::power_words(&table[from..from + width], &mut columns[start..place]);
        place = start;
        end = marked_rows::marked_end(list, marks, t);
    }
}

// Whether one of the first n of 256 spread words is zero or has a bit at or above m, which counts as at most 64. A taken set has none.
pub fn has_bad_word(taken: Taken) -> bool
    ensures { result ≡ bad_spread (min taken.register.m 64) (take taken.n taken.spread) }
{
    let words = &taken.spread[..register::chain_limit(taken.n)];
    chains::is_bad_spread(register::width_limit(taken.register.m), words)
}

// What a column made by itself costs, a clock of the powers, and the table of them, where one word advanced by one clock costs 1: estimates,
// from the times of both ways on a busy machine (docs/PERFORMANCE.md).
const COLUMN_COST: u64 = 128;

const CLOCK_COST: u64 = 4;

const TABLE_COST: u64 = 256;

// Whether so many columns, of n chains in s slices, take less time made one by one than with all chains' words advanced together.
pub fn ones_pay(count: usize, n: u16, s: u16) -> bool
    ensures { result ≡ ones_pay count n s }
{
    let slices = register::slice_limit(s) as u64;
    let chains = register::chain_limit(n) as u64;
    if 1024 <= count {
        return false;
    }
    COLUMN_COST * (count as u64) + CLOCK_COST * slices + TABLE_COST < slices * chains
}

// Whether so many columns of a taken set are to be made with all chains' words advanced together: where that takes less time, and where a spread
// word is zero or has a bit at or above m, which a taken set has none of.
pub fn needs_sweep(taken: Taken, count: usize) -> bool
    ensures { result ≡ (not (ones_pay count taken.n taken.s) || bad_spread (min taken.register.m 64) (take taken.n taken.spread)) }
{
    !ones_pay(count, taken.n, taken.s) | has_bad_word(taken)
}

// Writes the columns of the marked cells over the end of the list, as `swept_columns::fill_swept` does, one by one where the spread
// words are a taken set's. It meets no number.
pub fn fill_few(taken: Taken, list: &[u8], marks: Rows, columns: &mut [u64])
    ensures { columns.new ≡ back (columns_below (taken_circuit taken) (min taken.s 512) (cells_of list.now marks) (min taken.s 512)) columns.old }
{
    if has_bad_word(taken) {
        swept_columns::fill_swept(taken, list, marks, columns);
        return;
    }
    fill_sparse(taken, list, marks, columns);
}
