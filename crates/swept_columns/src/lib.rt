// Columns by a sweep: from the last slice to the first, with all the chains' words advanced together. It sees the register's powers, the
// marked words of a row and a taken set. The function is total.
#![tactic(auto)]

ghost use Rattle.std.specs.Prelude.{◌≡◌, min};
ghost use Rattle.rows.specs.Lists.{cells_of};
ghost use Rattle.marked_words.specs.Back.{back};
ghost use Rattle.set_file.specs.Reading.{taken_circuit};
ghost use Rattle.signatures.specs.Columns.{columns_below};

use rows::Rows;
use set_file::Taken;

// Writes the columns of the marked cells over the end of the list, by slice and then by chain, for a register and chains as a taken
// set has them. It goes from the last slice, whose columns are the spread words, to the first, and advances every word once for
// each. It meets no number: a width counts as at most 64, the slices as at most 512, and a row past the end has no mark. Where the
// list is shorter than the columns, the first of them are lost.
pub fn fill_swept(taken: Taken, list: &[u8], marks: Rows, columns: &mut [u64])
    ensures { columns.new ≡ back (columns_below (taken_circuit taken) (min taken.s 512) (cells_of list.now marks) (min taken.s 512)) columns.old }
{
    let register = taken.register;
    let mut spread = taken.spread;
    let words = &mut spread[..register::chain_limit(taken.n)];
    let slices = register::slice_limit(taken.s);
    let mut place = columns.len();
    for t in (0..slices).rev() {
        let row = rows::row_of(list, marks, t);
        place = marked_words::list_row(&mut columns[..place], words, row);
        powers::advance_words(register, words);
    }
}
