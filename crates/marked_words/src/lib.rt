// The words of the chains whose cell in a row is marked, written over the end of a list. It sees words, numbers and rows; it knows no
// register and no file. The public functions are total; the private ones that ask for something are those without a test in their loops.
#![tactic(auto)]

ghost use Rattle.std.specs.Prelude.{◌≡◌, List, [], ◌∷◌, ℕ, ◌-◌, ◌*◌, ◌^◌, ◌≤◌, ◌<◌, ltb, length, get_or, take};
ghost use Rattle.std.specs.Int.Count.{ones};
ghost use Rattle.std.specs.Int.Bits.{bit_and};
ghost use Rattle.word.specs.Word.{low_mask};
ghost use Rattle.numbers.specs.Bytes.{word_at};
ghost use Rattle.rows.specs.Row.{cell};
ghost use Rattle.rows.specs.Marks.{marked_words, bits};
ghost use Rattle.marked_words.specs.Back.{back};
ghost use Rattle.marked_words.specs.Fitting.{FittedIn};

// How far a row was listed: so many places stand before the words in the list, and so many chains are left.
#[derive(Drop)]
pub struct Fitted {
    pub place: usize,
    pub chains: usize,
}

// Writes the word over the list's last place, and answers with how many places stand before it.
fn put_last(columns: &mut [u64], word: u64) -> usize
    ensures value { result ≡ length columns.old - 1 }
    ensures columns_after { columns.new ≡ back (word ∷ []) columns.old }
{
    let room = columns.len();
    if room == 0 {
        return 0;
    }
    columns[room - 1] = word;
    room - 1
}

// Writes the words of the chains whose bit in `marks` is 1 over the list's end, from the last chain on, and answers with how many
// places stand before them. The list may be too short for them.
fn list_from_last(columns: &mut [u64], words: &[u64], marks: u64) -> usize
    ensures value { result ≡ length columns.old - length (marked_words words.now (bits marks) 64) }
    ensures columns_after { columns.new ≡ back (marked_words words.now (bits marks) 64) columns.old }
{
    let mut place = columns.len();
    let mut left = marks;
    // no plainer: it goes from one bit to the next
    while left != 0 {
        let top = word::highest_bit(left);
        place = put_last(&mut columns[..place], word::word_at(words, top as usize));
        left -= 1u64 << top;
    }
    place
}

// The same for a list that is long enough, and marks of chains that have a word, from the first chain on: the next bit then doesn't wait
// for the one before it.
fn list_from_first(columns: &mut [u64], words: &[u64], marks: u64) -> usize
    requires marks_in_bounds { ones marks ≤ length columns.old }
    requires marks_bound { marks < 2 ^ length words.now }
    ensures value { result ≡ length columns.old - length (marked_words words.now (bits marks) 64) }
    ensures columns_after { columns.new ≡ back (marked_words words.now (bits marks) 64) columns.old }
{
    let start = columns.len() - marks.count_ones() as usize;
    let mut place = start;
    let mut left = marks;
    // slower: a `for` over the places takes 1.09 times the instructions for a row of 8 marks, since `left` is at hand to be tested for 0
    while left != 0 {
        let low = left.trailing_zeros() as usize;
        columns[place] = words[low];
        left &= left - 1;
        place += 1;
    }
    start
}

// The same where 64 chains are all marked: the first 64 words.
fn list_whole(columns: &mut [u64], words: &[u64]) -> usize
    requires in_bounds { 64 ≤ length columns.old }
    requires in_bounds_2 { 64 ≤ length words.now }
    ensures value { result ≡ length columns.old - 64 }
    ensures columns_after { columns.new ≡ back (take 64 words.now) columns.old }
{
    let start = columns.len() - 64;
    // no `copy_from_slice`: it makes a call of `memmove`, a name that the archive for C asks for nowhere else
    for c in 0..64 {
        columns[start + c] = words[c];
    }
    start
}

// Writes the words of the chains whose bit in `marks` is 1 over the list's end, and answers with how many places stand before them. Each such
// chain has a word.
fn list_word(columns: &mut [u64], words: &[u64], marks: u64) -> usize
    requires { marks < 2 ^ length words.now }
    ensures value { result ≡ length columns.old - length (marked_words words.now (bits marks) 64) }
    ensures columns_after { columns.new ≡ back (marked_words words.now (bits marks) 64) columns.old }
{
    if marks == 0 {
        return columns.len();
    }
    if columns.len() < marks.count_ones() as usize {
        return list_from_last(columns, words, marks);
    }
    if marks == u64::MAX {
        return list_whole(columns, words);
    }
    list_from_first(columns, words, marks)
}

// The marks of the 64 chains from 64 times i on, as far as there are chains. The row may be short.
fn marks_at(row: &[u8], chains: usize, i: usize) -> u64
    requires { 64 * i ≤ chains }
    ensures { result ≡ bit_and (word_at row.now (8 * i)) (low_mask (chains - 64 * i)) }
{
    numbers::read_word(row, 8 * i) & word::low_mask((chains - 64 * i) as u64)
}

// Writes the words of the marked chains over the list's end, by words of 64 cells from the last one on, and answers with how many places
// stand before them. The closure gives the marks of a word's chains.
fn list_by<F: Fn(usize) -> u64>(columns: &mut [u64], words: &[u64], marks_of: F) -> usize
    requires callable { (i : ℕ) → 64 * i < length words.now → F.pre marks_of i }
    requires inside { (i marks : ℕ) → 64 * i < length words.now → F.post marks_of i marks → marks < 2 ^ (length words.now - 64 * i) }
    ensures { (row : List ℕ) → ((j : ℕ) → get_or row j 0 < 256) → ((i marks : ℕ) → 64 * i < length words.now → F.post marks_of i marks → marks ≡ bit_and (word_at row (8 * i)) (low_mask (length words.now - 64 * i))) → (result ≡ length columns.old - length (marked_words words.now (cell row) (length words.now))) × (columns.new ≡ back (marked_words words.now (cell row) (length words.now)) columns.old) }
{
    let mut place = columns.len();
    for i in (0..words.len().div_ceil(64)).rev() {
        place = list_word(&mut columns[..place], &words[64 * i..], marks_of(i));
    }
    place
}

// Writes the words of the chains whose cell in the row is 1 over the list's end, and answers with how many places stand before
// them. It goes by words of 64 cells; a row may have bits past the last chain. For 256 chains and a row with all their cells no word of
// the row is short, and none needs a mask.
pub fn list_row(columns: &mut [u64], words: &[u64], row: &[u8]) -> usize
    ensures value { result ≡ length columns.old - length (marked_words words.now (cell row.now) (length words.now)) }
    ensures columns_after { columns.new ≡ back (marked_words words.now (cell row.now) (length words.now)) columns.old }
{
    let chains = words.len();
    if (chains == 256) & (row.len() == 32) {
        return list_by(columns, words, |i| numbers::eight_bytes(row, 8 * i));
    }
    list_by(columns, words, |i| marks_at(row, chains, i))
}

// Whether more than `room` bits are 1.
fn is_too_many(marks: u64, room: usize) -> bool
    ensures { result ≡ ltb room (ones marks) }
{
    if marks == 0 {
        return false;
    }
    room < marks.count_ones() as usize
}

// The same as far as there is room: from the last chain on, by words of 64 cells, up to the first whose marked cells don't fit. 64 places
// always take one word's.
pub fn list_fitting(columns: &mut [u64], words: &[u64], row: &[u8]) -> Fitted
    ensures { FittedIn words.now (cell row.now) columns.old columns.new result }
{
    let chains = words.len();
    let mut place = columns.len();
    for i in (0..chains.div_ceil(64)).rev() {
        let marks = marks_at(row, chains, i);
        if is_too_many(marks, place) {
            return Fitted {
                place,
                chains: chains.min(64 * (i + 1)),
            };
        }
        place = list_word(&mut columns[..place], &words[64 * i..], marks);
    }
    Fitted { place, chains: 0 }
}
