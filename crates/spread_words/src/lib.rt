// The first columns of many, taken by a basis where the list's words allow it: where each has a highest bit of its own, clear in the other
// words, as the words of a reduced list have. Each word stands in the slot of that bit then. It sees words, combinations and the basis.
#![tactic(auto)]

ghost use Rattle.std.specs.Prelude.{◌≡◌, true, ◌≤◌, length, take, IfSome};
ghost use Rattle.word.specs.Zeros.{zeros};
ghost use Rattle.combinations.specs.Step.{steps};
ghost use Rattle.turned_words.specs.Turned.{kept};
ghost use Rattle.column_basis.specs.Basis.{Held};
ghost use Rattle.spread_words.specs.Spread.{Spread, OwnBits, SpreadFrom, FirstTaken};
ghost use Rattle.spread_words.specs.declared.Begun.{Begun};

use column_basis::ColumnBasis;

// Puts each word into the slot of its highest bit. Answers with the bits that are dead then; with `None` where the highest bits don't
// ascend or a word is 0.
fn spread(words: &[u64], slots: &mut [u64]) -> Option<u64>
    requires { slots.old ≡ zeros 64 }
    ensures { IfSome result (λ dead. SpreadFrom words.now slots.new dead) }
{
    let mut dead = column_basis::ALL_DEAD;
    let mut next: u64 = 0;
    for &w in words {
        let top = word::highest_bit(w);
        if top < next {
            return None;
        }
        if w >> top != 1 {
            return None;
        }
        slots[top as usize] = w;
        dead ^= 1u64 << top;
        next = top + 1;
    }
    Some(dead)
}

// Whether, of the bits that aren't dead, the word of each slot has its own alone, and that of a dead slot none.
fn has_own_bits(slots: &[u64], dead: u64) -> bool
    requires { length slots.now ≡ 64 }
    ensures { result ≡ true → OwnBits slots.now dead }
{
    let alive = dead ^ column_basis::ALL_DEAD;
    slots
        .iter()
        .enumerate()
        .all(|(i, w)| w & alive == alive & (1u64 << i))
}

// The basis of the slots' words: their dead bits, turned.
fn turn_in(slots: &[u64], dead: u64) -> ColumnBasis
    requires { Spread slots.now dead × OwnBits slots.now dead }
    ensures dead { result.dead ≡ dead }
    ensures list { Held (kept dead slots.now) result.words result.dead }
{
    let mut words = column_basis::unit_words();
    for (i, w) in slots.iter().enumerate() {
        turned_words::xor_into(&mut words, *w & dead, 1u64 << i);
    }
    ColumnBasis { words, dead }
}

// Writes the words of the slots that aren't dead over the front of `words`; answers with how many they are. No more than there is room for.
fn keep_alive(slots: &[u64], dead: u64, words: &mut [u64]) -> usize
    ensures { length (kept dead slots.now) ≤ length words.old → (result ≡ length (kept dead slots.now)) × (take result words.new ≡ kept dead slots.now) }
{
    let mut rest = dead;
    let mut at: usize = 0;
    for w in slots {
        if words.len() <= at {
            return at;
        }
        words[at] = *w;
        at += 1 - (rest % 2) as usize;
        rest /= 2;
    }
    at
}

// The columns one after the other, on the words of the slots that aren't dead. Writes the words that are left over the front of `words`, and
// answers with how many they are.
fn reduce_spread(slots: &[u64], dead: u64, columns: &[u64], words: &mut [u64]) -> usize
    requires { Spread slots.now dead × OwnBits slots.now dead }
    ensures { length (kept dead slots.now) ≤ length words.old → (result ≡ length (steps columns.now (kept dead slots.now))) × (take result words.new ≡ steps columns.now (kept dead slots.now)) }
{
    let mut basis = turn_in(slots, dead);
    basis.take_columns(columns);
    if basis.dead == column_basis::ALL_DEAD {
        return 0;
    }
    let made = basis.slot_words();
    keep_alive(&made, basis.dead, words)
}

// Where the basis pays: it takes some time to make it, and to make the words from it again. These are estimates: of how many words and how
// many pairs of a word and a column on it takes less time than a parity for each pair, and for how many of the columns it is used. Behind
// these most of the rank is found, and a table passes over columns faster.
const FEWEST_WORDS: usize = 24;

const FEWEST_PAIRS: usize = 700;

const MOST_COLUMNS: usize = 128;

// How many of the columns, from the first on, are taken.
fn taken_count(words: usize, columns: usize) -> usize
    ensures { result ≤ columns }
{
    if 64 < words {
        return 0;
    }
    if words < FEWEST_WORDS {
        return 0;
    }
    if MOST_COLUMNS <= columns {
        return MOST_COLUMNS;
    }
    if words * columns < FEWEST_PAIRS {
        return 0;
    }
    columns
}

// How many columns were taken, and how many words are left.
#[derive(Drop)]
pub struct Begun {
    pub count: usize,
    pub left: usize,
}

// The first columns one after the other, as many as are taken; the words that are left stand at the front of `words`.
pub fn begin(words: &mut [u64], columns: &[u64]) -> Begun
    ensures { FirstTaken columns.now words.old words.new result }
{
    let count = taken_count(words.len(), columns.len());
    if count == 0 {
        return Begun {
            count: 0,
            left: words.len(),
        };
    }
    let mut slots = [0; 64];
    let Some(dead) = spread(words, &mut slots) else {
        return Begun {
            count: 0,
            left: words.len(),
        };
    };
    if !has_own_bits(&slots, dead) {
        return Begun {
            count: 0,
            left: words.len(),
        };
    }
    let left = reduce_spread(&slots, dead, &columns[..count], words);
    Begun { count, left }
}
