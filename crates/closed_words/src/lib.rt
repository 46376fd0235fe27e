// Words that no column which is left can change: the space of their XORs is closed under the clock, and they are even with every chain that
// is still marked. It sees a register, rows of marks and columns as words; it knows no portions.
#![tactic(auto)]

ghost use Rattle.std.specs.Prelude.{◌≡◌, true, List, ℕ, ◌+◌, ◌≤◌, min, length, drop};
ghost use Rattle.word.specs.Word.{parity};
ghost use Rattle.combinations.specs.Combination.{x_free};
ghost use Rattle.parity_table.specs.Table.{even_run};
ghost use Rattle.rows.specs.Row.{cell};
ghost use Rattle.rows.specs.Lists.{cells_of};
ghost use Rattle.register.specs.Circuit.{advanced};
ghost use Rattle.closed_words.specs.Closed.{EvenAll, ClosedUnder, EvenFor, Unchanging};

use register::Register;
use rows::Rows;

// The word whose parity with every x is that of w with x one clock later, with all cells 0 and no inversion. A width above 64 counts as
// 64, and at width 0 bit 0 counts as the old top bit.
fn transposed(register: Register, w: u64) -> u64
    ensures { (x : ℕ) → parity w (advanced (min register.m 64) register.taps x) ≡ parity result x }
{
    let mask = word::low_mask(register.m);
    let top = mask / 2 + 1;
    let feedback = chains::chosen_word(word::shared_parity(w, register.taps), top);
    ((w & mask) / 2) ^ feedback
}

// For each bit a word whose highest bit it is, and 0 where there is none: each is even with whatever is even with all words.
fn by_highest(words: &[u64]) -> [u64; 64]
    ensures { EvenAll words.now result }
{
    let mut tops = [0; 64];
    for &w in words {
        let at = word::highest_bit(w) as usize;
        tops[at] = w;
    }
    tops
}

// What is left of w when for each of its bits the word with that highest bit was XORed in. Only words of the list were, so whatever is even
// with all of them has the same parity with what is left. That nothing is left of an XOR of the words of a reduced list is why it is done,
// and isn't proved: nothing rests on it.
fn residue(tops: &[u64], w: u64) -> u64
    ensures { (ws : List ℕ) → EvenAll ws tops.now → (x : ℕ) → x_free ws x ≡ true → parity result x ≡ parity w x }
{
    w ^ word::xor_marked(tops, w)
}

// Whether it is known that what is even with all words is so one clock later too.
fn is_closed(register: Register, words: &[u64]) -> bool
    ensures { result ≡ true → ClosedUnder (min register.m 64) register.taps words.now }
{
    let tops = by_highest(words);
    for &w in words {
        if residue(&tops, transposed(register, w)) != 0 {
            return false;
        }
    }
    true
}

// The place of the first column, from place `from` on, that is odd with one of the words; the end where none is. By a table where so many
// columns and words make up for the time that it takes. No plainer as
// an Option: what is asked is whether the place is the end.
fn first_odd(words: &[u64], columns: &[u64], from: usize) -> usize
    ensures { result ≡ from + even_run words.now (drop from columns.now) }
{
    if parity_table::pays(words.len(), columns.len().saturating_sub(from)) {
        parity_table::skip_even(words, columns, from)
    } else {
        parity_table::skip_plainly(words, columns, from)
    }
}

// Whether it is known that the words of the marked chains of a row, of at most 256, are even with all of the words held.
fn are_even(held: &[u64], words: &[u64], row: &[u8]) -> bool
    ensures { result ≡ true → length words.now ≤ 256 → EvenFor held.now words.now (cell row.now) }
{
    let mut columns = [0; 256];
    let place = marked_words::list_row(&mut columns, words, row);
    columns.len() <= first_odd(held, &columns, place)
}

// Whether it is known that the words held stay as they are, whatever columns the marked cells of the first t rows have: each of these is a
// word of one of at most 256 chains, some clocks later with all cells 0 and no inversion. It costs some thousands of parities.
pub fn is_settled(
    register: Register,
    list: &[u8],
    marks: Rows,
    t: u16,
    words: &[u64],
    held: &[u64],
) -> bool
    ensures { result ≡ true → length words.now ≤ 256 → Unchanging (min register.m 64) register.taps (cells_of list.now marks) t words.now held.now }
{
    if !is_closed(register, held) {
        return false;
    }
    let all = joint_marks::joint_marks(list, marks, t);
    are_even(held, words, &all)
}
