// A table of the parities of some words with every byte of a column, by which columns that are even with all of the words are
// passed over. It sees words, turned words and combinations, and knows nothing of the elimination that uses it.
#![tactic(auto)]

ghost use Rattle.std.specs.Prelude.{◌≡◌, true, false, ℕ, ◌+◌, ◌≤◌, ◌<◌, length, get_or, take, drop};
ghost use Rattle.word.specs.Word.{parity};
ghost use Rattle.combinations.specs.Combination.{x_free};
ghost use Rattle.parity_table.specs.Table.{ParityTable, table_pays, even_run, table_run};

// Makes the table of the parities of the first 64 words with every byte of a column: that of their rows (`turned_words::turn`). It takes about as
// long as five hundred parities.
fn fill_parities(table: &mut [u64], words: &[u64])
    requires { 2048 ≤ length table.old }
    ensures { ParityTable (take 64 words.now) table.new }
{
    let rows = turned_words::turn(words);
    byte_tables::fill_table(table, &rows);
}

// That table.
pub fn byte_table(words: &[u64]) -> [u64; 2048]
    ensures { ParityTable (take 64 words.now) result }
{
    let mut table = [0; 2048];
    fill_parities(&mut table, words);
    table
}

// The place of the first column, from place `from` on, for which the table doesn't give 0; the end where none is. By the table of some
// words that is the first column that is odd with one of them (proofs/SkipLaws.antt, table_run_lem). No plainer as an Option, here and
// in the two below: a caller goes on from the place, and stops at the end.
pub fn skip_by_table(table: &[u64; 2048], columns: &[u64], from: usize) -> usize
    ensures { result ≡ from + table_run table.now (drop from columns.now) }
{
    let rest = &columns[from.min(columns.len())..];
    let even = rest
        .iter()
        .take_while(|x| byte_tables::looked_up(table, **x) == 0)
        .count();
    from + even
}

// The same for the first 64 words, whose table is made for it, here and not by `byte_table`: a table handed back is copied.
pub fn skip_even(words: &[u64], columns: &[u64], from: usize) -> usize
    ensures { result ≡ from + even_run (take 64 words.now) (drop from columns.now) }
{
    let mut table = [0; 2048];
    fill_parities(&mut table, words);
    skip_by_table(&table, columns, from)
}

// A table takes about as long to make as so many parities of 64 columns with one word: an estimate, by instructions.
const TABLE_COST: usize = 24;

// Whether for so many columns a table of so many words, 64 at most, takes less time to make and look up than the parities by themselves.
pub fn pays(words: usize, columns: usize) -> bool
    ensures { result ≡ table_pays words columns }
{
    if (words < 4) | (64 < words) {
        return false;
    }
    TABLE_COST <= columns / 64 * words
}

// Whether the column is even with every word.
fn is_even(words: &[u64], column: u64) -> bool
    ensures { result ≡ x_free words.now column }
{
    words.iter().all(|w| word::shared_parity(column, *w) == 0)
}

// Whether some column is odd with the word. All are looked at, so that the loop has no way out.
fn has_odd(columns: &[u64], w: u64) -> bool
    ensures { result ≡ false → (j : ℕ) → j < length columns.now → parity (get_or columns.now j 0) w ≡ 0 }
{
    let odd = columns
        .iter()
        .fold(0, |odd, x| odd | word::shared_parity(*x, w));
    odd != 0
}

// Whether all columns are even with every word.
fn are_even(words: &[u64], columns: &[u64]) -> bool
    ensures { result ≡ true → (j : ℕ) → j < length columns.now → x_free words.now (get_or columns.now j 0) ≡ true }
{
    words.iter().all(|w| !has_odd(columns, *w))
}

// The columns that are looked at together.
const BLOCK: usize = 64;

// How many columns stand in whole blocks at the front in which all are even with every word.
fn even_blocks(words: &[u64], columns: &[u64]) -> usize
    ensures within { result ≤ length columns.now }
    ensures even { (j : ℕ) → j < result → x_free words.now (get_or columns.now j 0) ≡ true }
{
    let blocks = columns
        .chunks_exact(BLOCK)
        .take_while(|block| are_even(words, block))
        .count();
    BLOCK * blocks
}

// The place of the first column, from place `from` on, that is odd with one of the words, without a table; the end where none is. For a few
// words it takes less time than looking a column up.
pub fn skip_plainly(words: &[u64], columns: &[u64], from: usize) -> usize
    ensures { result ≡ from + even_run words.now (drop from columns.now) }
{
    let rest = &columns[from.min(columns.len())..];
    let even = even_blocks(words, rest);
    let behind = rest[even..]
        .iter()
        .take_while(|x| is_even(words, **x))
        .count();
    from + even + behind
}
