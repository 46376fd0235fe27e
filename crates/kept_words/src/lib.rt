// The words of a taken set, from a working list: those of its free cells, by portions of their columns in 64 places, and then the columns of
// its named symbols, one place each behind the 64. It sees the words of marked cells, the columns of symbols and a taken set.
#![tactic(auto)]

ghost use Rattle.std.specs.Prelude.{◌≡◌, [], ◌∷◌, ◌+◌, ◌*◌, ◌≤◌, length, take, drop};
ghost use Rattle.word.specs.Reply.{lent};
ghost use Rattle.combinations.specs.Step.{units};
ghost use Rattle.rows.specs.Row.{row_bytes};
ghost use Rattle.set_layout.specs.Layout.{width_of, mark_at};
ghost use Rattle.set_file.specs.Reading.{TakenFrom};
ghost use Rattle.signatures.specs.Sets.{named_of};
ghost use Rattle.kept_words.specs.Working.{words_of, working_test, working_after, kept_reply, said, named_columns_of, with_symbols, free_words};

use refusals::Refusal;
use rows::Rows;
use set_file::Taken;

// The places that portions of columns are worked in; the columns of named symbols stand behind them.
const WORKING_PLACES: usize = 64;

// Where the marks of the unknown cells stand, in a set of n chains. A function of its own, so that an edit of it is refused for its
// contract.
fn unknown_rows(n: u16) -> Rows
    ensures { (result.at ≡ mark_at n 0) × (result.stride ≡ 2 * row_bytes n) × (result.bytes ≡ row_bytes n) }
{
    set_layout::mark_rows(n)
}

// The number of a taken set's named symbols, and their columns behind the first 64 places of `working`, where it has a place for each.
fn put_symbols(taken: Taken, set: &[u8], working: &mut [u64]) -> usize
    ensures few { result ≤ 256 }
    ensures symbols { TakenFrom set.now taken → (result ≡ named_of set.now) × (working.new ≡ with_symbols set.now working.old) }
{
    let entries = set_layout::tie_count(set);
    if entries == 0 {
        return 0;
    }
    let ties = set_layout::tie_bytes(set);
    let limit = symbol_flags::tie_limit(entries) as usize;
    let flags = symbol_flags::opening_flags(ties, entries);
    let symbols = symbol_flags::count_flags(&flags[..limit]) as usize;
    let end = WORKING_PLACES + symbols;
    if working.len() < end {
        return symbols;
    }
    symbol_columns::fill_symbols(
        taken,
        ties,
        entries,
        &flags[..],
        &mut working[WORKING_PLACES..end],
    );
    symbols
}

// The words of a taken set's free cells, from the words of single bits on, which stand in `held`. Answers with how many are left, which stand
// at the front of `held`.
fn reduce_free(taken: Taken, set: &[u8], working: &mut [u64], held: &mut [u64]) -> usize
    ensures left { result ≤ length held.old }
    ensures words { TakenFrom set.now taken → 64 ≤ length working.old → held.old ≡ units (width_of set.now) → (result ≡ length (free_words set.now)) × (take result held.new ≡ free_words set.now) }
{
    let n = taken.n;
    let s = taken.s;
    let marks = unknown_rows(n);
    let count = set_layout::tie_count(set);
    let is_free = count == 0;
    if is_free {
        return set_words::reduce_cells(taken, set, marks, working, held);
    }
    let ties = set_layout::tie_bytes(set);
    let free = free_marks::unmark(set, marks, n, s, ties, count, &[]);
    set_words::reduce_cells(taken, &free[..], Rows::packed(n), working, held)
}

// All the words of a taken set, where the columns of its named symbols stand behind the first 64 places of `working`, and nothing behind them.
fn reduce_symbols(taken: Taken, set: &[u8], working: &mut [u64], held: &mut [u64]) -> usize
    ensures left { result ≤ length held.old }
    ensures words { TakenFrom set.now taken → 64 ≤ length working.old → drop 64 working.old ≡ named_columns_of set.now → held.old ≡ units (width_of set.now) → (result ≡ length (words_of set.now)) × (take result held.new ≡ words_of set.now) }
{
    if working.len() < WORKING_PLACES {
        return held.len();
    }
    let free = reduce_free(taken, set, &mut working[..WORKING_PLACES], held);
    elimination::add_columns(&mut held[..free], &working[WORKING_PLACES..])
}

// The words of a taken set. Answers with q, and writes the q words over the front of `words`. Meets 14, 17 and 18, in that order; past 14 the
// first places of `working`, 64 and one for each named symbol, hold 0, and a refusal writes nothing else.
pub fn fill_words(
    taken: Taken,
    set: &[u8],
    working: &mut [u64],
    words: &mut [u64],
) -> Result<u64, Refusal>
    ensures { TakenFrom set.now taken → (said result ≡ kept_reply set.now (length working.old) (length words.old)) × ((working.new ≡ working_after (working_test set.now (length working.old) ∷ []) set.now working.old) × (words.new ≡ lent (kept_reply set.now (length working.old) (length words.old)) (words_of set.now) words.old)) }
{
    let symbols = put_symbols(taken, set, working);
    let places = WORKING_PLACES + symbols;
    let is_short = working.len() < places;
    if is_short {
        return Err(Refusal::ShortColumnList);
    }
    let width = register::width_limit(taken.register.m) as usize;
    let mut held = elimination::unit_words();
    let q = reduce_symbols(taken, set, &mut working[..places], &mut held[..width]);
    word::clear_words(&mut working[..places]);
    if q == 0 {
        return Err(Refusal::NoCombination);
    }
    if words.len() < q {
        return Err(Refusal::ShortWordList);
    }
    elimination::write_front(words, &held[..q]);
    Ok(q as u64)
}
