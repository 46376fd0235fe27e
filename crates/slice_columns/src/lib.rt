// The columns of one slice after the other, in a frame that stays: each slice's are the spread words of its marked cells, undone one clock for
// each slice before it. All the chains' words are undone 8 clocks together, by a table, and for the slices between only those of marked
// cells. It sees the clocks undone and the marked words of a row; it knows no file. Every function is total.
#![tactic(auto)]

ghost use Rattle.std.specs.Prelude.{◌≡◌, cond, List, [], map, ℕ, ◌+◌, ◌-◌, ◌/◌, ◌%◌, ◌≤◌, min, eqb, length, drop, get_or};
ghost use Rattle.std.specs.Int.Bits.{bit_xor};
ghost use Rattle.rows.specs.Row.{cell};
ghost use Rattle.rows.specs.Marks.{marked_words};
ghost use Rattle.marked_words.specs.Back.{back};
ghost use Rattle.register.specs.Circuit.{Circuit, circuit};
ghost use Rattle.unclocking.specs.Unclocked.{earlier, EightBack};
ghost use Rattle.slice_columns.specs.Frame.{eights, marked_earlier, NextFrom};

use register::Register;
use rows::Rows;

// The columns of slice t's marked cells over the end of the list, where `words` are the chains' words for it (`pass_slice`). Answers with
// how many places stand before them. It meets no number: a width counts as at most 64. Where the list is shorter than the columns, the first
// of them are lost.
fn list_slice(register: Register, row: &[u8], t: u16, words: &[u64], columns: &mut [u64]) -> usize
    ensures place { result ≡ length columns.old - length (marked_words words.now (cell row.now) (length words.now)) }
    ensures list { columns.new ≡ back (map (earlier (circuit (min register.m 64) register.taps 0 []) (t % 8)) (marked_words words.now (cell row.now) (length words.now))) columns.old }
    ensures frame { (v : ℕ) (spread : List ℕ) → length words.now ≤ length columns.old → words.now ≡ map (earlier (circuit (min register.m 64) register.taps v spread) (eights t)) spread → drop result columns.new ≡ marked_earlier (circuit (min register.m 64) register.taps v spread) t (cell row.now) }
{
    let place = marked_words::list_row(columns, words, row);
    unclocking::unclock_words(register, t % 8, &mut columns[place..]);
    place
}

// The chains' words for the slice behind slice t, from those for it: behind the last of eight slices they are undone 8 clocks, by the table
// (`unclocking::eight_back`).
fn pass_slice(table: &[u64; 256], t: u16, words: &mut [u64])
    ensures looked { words.new ≡ cond (eqb (t % 8) 7) (map (λ w. bit_xor (w / 256) (get_or table.now (w % 256) 0)) words.old) words.old }
    ensures frame { (k : Circuit) (spread : List ℕ) → EightBack k table.now → words.old ≡ map (earlier k (eights t)) spread → words.new ≡ map (earlier k (eights (t + 1))) spread }
{
    let is_eighth = t % 8 == 7;
    if is_eighth {
        unclocking::unclock_eight(table, words);
    }
}

// The columns of slice t's marked cells over the end of the list, where `words` are the chains' words for it, and then the words for the next
// slice. Answers with how many places stand before the columns. It meets no number: a width counts as at most 64, and a row past the end has
// no mark. Where the list is shorter than the columns, the first of them are lost.
pub fn next_columns(
    register: Register,
    table: &[u64; 256],
    list: &[u8],
    marks: Rows,
    t: u16,
    words: &mut [u64],
    columns: &mut [u64],
) -> usize
    ensures { NextFrom register table.now list.now marks t words.old words.new columns.old columns.new result }
{
    let row = rows::row_of(list, marks, t);
    let place = list_slice(register, row, t, words, columns);
    pass_slice(table, t, words);
    place
}
