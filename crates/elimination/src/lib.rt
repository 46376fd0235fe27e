// The elimination: a width and columns in, the rank and the reduced X-free list out. It knows nothing of registers, sets or files.
#![tactic(auto)]

ghost use Rattle.std.specs.Prelude.{◌≡◌, ℕ, ◌≤◌, length, take, drop};
ghost use Rattle.word.specs.Word.{beyond};
ghost use Rattle.word.specs.Some.{any_of};
ghost use Rattle.word.specs.Reply.{front, lent};
ghost use Rattle.word.specs.Zeros.{filled};
ghost use Rattle.combinations.specs.Reduced.{reduced_list};
ghost use Rattle.combinations.specs.Step.{steps, units};
ghost use Rattle.elimination.specs.Elimination.{elimination_reply, said};

use refusals::Refusal;

// What the elimination answers: the rank and the number of words.
#[derive(Clone, Copy)]
pub struct Eliminated {
    pub rank: u64,
    pub q: u64,
}

// The place of the column to take next, `from` or later: the columns passed over leave the words as they are. It looks for such
// columns where the last one taken was one, so that there are as many words as before it: by a table where that pays.
fn next_place(words: &[u64], before: usize, columns: &[u64], from: usize) -> usize
    ensures { (from ≤ result) × (steps (drop result columns.now) words.now ≡ steps (drop from columns.now) words.now) }
{
    let count = words.len();
    if count != before {
        return from;
    }
    if columns.len() <= from {
        return from;
    }
    if !parity_table::pays(count, columns.len() - from) {
        return parity_table::skip_plainly(words, columns, from);
    }
    parity_table::skip_even(words, columns, from)
}

// The columns one after the other, with a parity for each word: answers with how many words are left, which stand at the front of
// `held`. Columns that leave the words as they are can be passed over. An empty list stays empty, so what is left of the columns is not looked at.
fn reduce_plainly(held: &mut [u64], columns: &[u64]) -> usize
    ensures { (result ≡ length (steps columns.now held.old)) × (take result held.new ≡ steps columns.now held.old) }
{
    let mut left = held.len();
    let mut i: usize = 0;
    // no plainer: `next_place` says which column comes next.
    while i < columns.len() {
        if left == 0 {
            return 0;
        }
        let before = left;
        left = column_step::add_column(&mut held[..left], columns[i]);
        i = next_place(&held[..left], before, columns, i + 1);
    }
    left
}

// The columns one after the other, the first of them by a basis where that pays: answers with how many words are left, which stand at
// the front of `held`.
fn reduce(held: &mut [u64], columns: &[u64]) -> usize
    ensures { (result ≡ length (steps columns.now held.old)) × (take result held.new ≡ steps columns.now held.old) }
{
    let begun = spread_words::begin(held, columns);
    let count = begun.count;
    let left = begun.left;
    reduce_plainly(&mut held[..left], &columns[count..])
}

// A portion of columns: a list of words that are X-free for some columns becomes the list for those and these. Answers with the number of
// words left, which stand at the front; the places behind them hold 0.
pub fn add_columns(words: &mut [u64], columns: &[u64]) -> usize
    ensures count { result ≡ length (steps columns.now words.old) }
    ensures list { words.new ≡ filled (steps columns.now words.old) (length words.old) }
{
    let left = reduce(words, columns);
    word::clear_words(&mut words[left..]);
    left
}

// The OR of all words: it has a bit at or above a width exactly where one of them has.
fn or_all(words: &[u64]) -> u64
    ensures { (m : ℕ) → beyond m result ≡ any_of (beyond m) words.now }
{
    words.iter().fold(0, |all, word| all | word)
}

// Whether some column has a bit at or above m. No word has a bit at or above 64.
fn has_column_beyond(m: u64, columns: &[u64]) -> bool
    ensures { result ≡ any_of (beyond m) columns.now }
{
    if 64 <= m {
        return false;
    }
    word::is_beyond(m, or_all(columns))
}

// The words of the 64 single bits: with no column, the first m of them are the words of width m.
pub fn unit_words() -> [u64; 64]
    ensures { result ≡ units 64 }
{
    column_basis::unit_words()
}

// `from` over the front of `words`; as much of it as there is room for.
pub fn write_front(words: &mut [u64], from: &[u64])
    ensures { words.new ≡ front (take (length words.old) from.now) words.old }
{
    let room = words.len().min(from.len());
    words[..room].copy_from_slice(&from[..room]);
}

// The elimination of document 01. Answers with the rank and q, and writes the q words of the reduced list over the front of
// `words`; the rest of it stays. Meets 2, 15, 17 and 18, in that order; a refusal writes nothing.
pub fn eliminate(m: u64, columns: &[u64], words: &mut [u64]) -> Result<Eliminated, Refusal>
    ensures answer { said result ≡ elimination_reply m columns.now (length words.old) }
    ensures list { words.new ≡ lent (elimination_reply m columns.now (length words.old)) (reduced_list m columns.now) words.old }
{
    if word::is_bad_width(m) {
        return Err(Refusal::Width);
    }
    if has_column_beyond(m, columns) {
        return Err(Refusal::Column);
    }
    let width = m as usize;
    let mut held = unit_words();
    let q = reduce(&mut held[..width], columns);
    let rank = width - q;
    let is_empty = q == 0;
    if is_empty {
        return Err(Refusal::NoCombination);
    }
    if words.len() < q {
        return Err(Refusal::ShortWordList);
    }
    write_front(words, &held[..q]);
    Ok(Eliminated {
        rank: rank as u64,
        q: q as u64,
    })
}
