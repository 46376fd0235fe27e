// Columns by eights: from the last slice to the first, with all the chains' words advanced by 8 clocks for every eighth slice, and those of
// marked cells by the clocks between, in a register raised to 64 bits. It sees the table of 8 clocks, the marked words of a row, a taken set
// and the sweep. The public function is total.
#![tactic(auto)]

ghost use Rattle.std.specs.Prelude.{◌≡◌, cond, false, map, ◌-◌, ◌*◌, ◌/◌, ◌%◌, ◌^◌, ◌≤◌, ◌<◌, min, eqb, length, take};
ghost use Rattle.rows.specs.Row.{cell};
ghost use Rattle.rows.specs.Marks.{marked_words};
ghost use Rattle.rows.specs.Lists.{cells_of};
ghost use Rattle.chains.specs.Driven.{bad_spread};
ghost use Rattle.marked_words.specs.Back.{back};
ghost use Rattle.set_file.specs.Reading.{taken_circuit};
ghost use Rattle.signatures.specs.Columns.{columns_below};
ghost use Rattle.eight_clocks.specs.Eight.{looked_on};

use register::Register;
use rows::Rows;
use set_file::Taken;

// The columns of a row's marked cells over the end of the list, for a slice that so many clocks follow, where `words` are the chains' words after
// the whole eights of these: the words are listed, and then advanced by the clocks between. Answers with how many places stand before them.
// Where the list is shorter than the columns, the first of them are lost.
fn list_slice(
    register: Register,
    table: &[u64; 256],
    row: &[u8],
    clocks: u16,
    words: &[u64],
    columns: &mut [u64],
) -> usize
    ensures place { result ≡ length columns.old - length (marked_words words.now (cell row.now) (length words.now)) }
    ensures list { columns.new ≡ back (map (looked_on (min register.m 64) table.now (clocks % 8)) (marked_words words.now (cell row.now) (length words.now))) columns.old }
{
    let place = marked_words::list_row(columns, words, row);
    eight_clocks::advance_few(register.m, clocks, table, &mut columns[place..]);
    place
}

// The chains' words for the slice before one that so many clocks follow, from those for it: eight slices share their words, and past the last of
// these they are advanced by 8 clocks, by the table.
fn pass_slice(register: Register, table: &[u64; 256], clocks: u16, words: &mut [u64])
    ensures { words.new ≡ cond (eqb (clocks % 8) 7) (map (looked_on (min register.m 64) table.now 8) words.old) words.old }
{
    let is_eighth = clocks % 8 == 7;
    if is_eighth {
        eight_clocks::advance_eight(register.m, table, words);
    }
}

// Writes the columns over the end of the list, for a register of at least 8 bits. It goes from the last slice, whose columns are the spread
// words, to the first. Answers with how many places stand before them.
fn fill_wide(taken: Taken, list: &[u8], marks: Rows, columns: &mut [u64]) -> usize
    requires { 8 ≤ taken.register.m }
    ensures place { result ≡ length columns.old - length (columns_below (taken_circuit taken) (min taken.s 512) (cells_of list.now marks) (min taken.s 512)) }
    ensures list { columns.new ≡ back (columns_below (taken_circuit taken) (min taken.s 512) (cells_of list.now marks) (min taken.s 512)) columns.old }
{
    let register = taken.register;
    let mut spread = taken.spread;
    let words = &mut spread[..register::chain_limit(taken.n)];
    let table = eight_clocks::eight_on(register);
    let slices = register::slice_limit(taken.s);
    let mut place = columns.len();
    for t in (0..slices).rev() {
        let clocks = slices - 1 - t;
        let row = rows::row_of(list, marks, t);
        place = list_slice(register, &table, row, clocks, words, &mut columns[..place]);
        pass_slice(register, &table, clocks, words);
    }
    place
}

// Moves the words up by so many places.
fn raise_words(shift: u64, words: &mut [u64])
    requires { shift < 64 }
    ensures { words.new ≡ map (λ w. w * 2 ^ shift % 2 ^ 64) words.old }
{
    for word in words.iter_mut() {
        *word <<= shift;
    }
}

// Moves the words down by so many places.
fn lower_words(shift: u64, words: &mut [u64])
    requires { shift < 64 }
    ensures { words.new ≡ map (λ w. w / 2 ^ shift) words.old }
{
    for word in words.iter_mut() {
        *word >>= shift;
    }
}

// Writes the columns over the end of the list, for a tap word and spread words without a bit at or above the width. They are made in a register
// of 64 bits, with each bit as far from the top as it stands in the narrower one, and then moved down: so the bits that leave it are always
// the highest of a word, and no mask is needed.
fn fill_raised(taken: Taken, list: &[u8], marks: Rows, columns: &mut [u64])
    requires le_m { 1 ≤ taken.register.m }
    requires taps_bound { taken.register.taps < 2 ^ min taken.register.m 64 }
    requires spread_value { bad_spread (min taken.register.m 64) (take taken.n taken.spread) ≡ false }
    ensures { columns.new ≡ back (columns_below (taken_circuit taken) (min taken.s 512) (cells_of list.now marks) (min taken.s 512)) columns.old }
{
    let shift = 64 - register::width_limit(taken.register.m);
    let mut spread = taken.spread;
    raise_words(shift, &mut spread);
    let register = Register::fresh(64, taken.register.taps << shift, 0);
    let raised = Taken {
        register,
        spread,
        ..taken
    };
    let place = fill_wide(raised, list, marks, columns);
    lower_words(shift, &mut columns[place..]);
}

// Writes the columns of the marked cells over the end of the list, as `swept_columns::fill_swept` does, by eights of clocks; where the tap word or a
// spread word isn't a taken set's, by a sweep. It meets no number.
pub fn fill_by_eights(taken: Taken, list: &[u8], marks: Rows, columns: &mut [u64])
    ensures { columns.new ≡ back (columns_below (taken_circuit taken) (min taken.s 512) (cells_of list.now marks) (min taken.s 512)) columns.old }
{
    let width = register::width_limit(taken.register.m);
    let taps = taken.register.taps;
    if (width < 1) | word::is_beyond(width, taps) | sparse_columns::has_bad_word(taken) {
        swept_columns::fill_swept(taken, list, marks, columns);
        return;
    }
    fill_raised(taken, list, marks, columns);
}
