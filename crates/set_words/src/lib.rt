// The words of marked cells, from portions of their columns. It sees the portions, the elimination and a taken set.
#![tactic(auto)]

ghost use Rattle.std.specs.Prelude.{◌≡◌, true, List, ℕ, ◌+◌, ◌*◌, ◌≤◌, ◌<◌, min, length, take};
ghost use Rattle.combinations.specs.Step.{units};
ghost use Rattle.rows.specs.Lists.{cells_of};
ghost use Rattle.closed_words.specs.Closed.{Unchanging};
ghost use Rattle.portions.specs.Portions.{wiring, slices_in};
ghost use Rattle.set_words.specs.Working.{taken_width, taken_words};
ghost use Rattle.set_words.specs.Reducing.{Reduced, Done};

use portions::{Portion, Source};
use rows::Rows;
use set_file::Taken;

// The places of the working list.
const WORKING_PLACES: usize = 64;

// From so many columns on it takes less time to ask whether they change anything than to make them.
const ASKED_COLUMNS: usize = 64;

// From so many bits on a register has a table of 8 clocks.
const EIGHT_BITS: u64 = 8;

// How far the work has come: the columns that are left, as after a portion; how many words are left, and about how many columns; how many
// words the last portion took away, if there was one.
#[derive(Clone, Copy)]
struct Progress {
    t: u16,
    chains: usize,
    left: usize,
    more: usize,
    lost: Option<usize>,
}

// Whether it is worth making a table of the words' parities: there are at most 64 words, the last portion left nearly all of them, and so
// many columns are left.
fn is_table_worth(at: Progress, words: usize) -> bool
    ensures { result ≡ true → words ≤ 64 }
{
    at.lost.is_some_and(|lost| lost < 2) & parity_table::pays(words, at.more)
}

// The next portions, up to the first with a column that is odd with one of the words: that one's columns through the elimination. Until
// then the words stay as they are, and with them a table of their parities.
fn add_by_table(
    source: Source,
    list: &[u8],
    powers: &[u64],
    words: &mut [u64],
    working: &mut [u64],
    held: &mut [u64],
    at: Progress,
) -> Progress
    requires { (64 ≤ length working.old) × (length words.old ≤ 256) × (length held.old ≤ 64) }
    ensures left { result.left ≤ length held.old }
    ensures less { 0 < at.t → 257 * result.t + result.chains < 257 * at.t + at.chains }
    ensures words { (spread : List ℕ) (m : ℕ) → Reduced (wiring source spread) (slices_in source) (cells_of list.now source.marks) m powers.now at.t at.chains words.old held.old → Reduced (wiring source spread) (slices_in source) (cells_of list.now source.marks) m powers.now result.t result.chains words.new (take result.left held.new) }
{
    let before = held.len();
    let table = parity_table::byte_table(held);
    let mut more = at.more;
    let mut portion = Portion {
        t: at.t,
        chains: at.chains,
        place: 0,
    };
    // no plainer: it steps by what each portion leaves
    while 0 < portion.t {
        portion = portions::fill_portion(source, list, powers, words, working, portion);
        more = more.saturating_sub(working.len() - portion.place);
        let odd = parity_table::skip_by_table(&table, working, portion.place);
        if odd < working.len() {
            let left = elimination::add_columns(held, &working[odd..]);
            return Progress {
                t: portion.t,
                chains: portion.chains,
                left,
                more,
                lost: Some(before - left),
            };
        }
    }
    Progress {
        t: portion.t,
        chains: portion.chains,
        left: before,
        more,
        lost: Some(0),
    }
}

// The next portion, its columns through the elimination; or the next portions, by a table, where that is worth it.
fn add_next(
    source: Source,
    list: &[u8],
    powers: &[u64],
    words: &mut [u64],
    working: &mut [u64],
    held: &mut [u64],
    at: Progress,
) -> Progress
    requires { (64 ≤ length working.old) × (length words.old ≤ 256) }
    ensures left { result.left ≤ length held.old }
    ensures less { 0 < at.t → 257 * result.t + result.chains < 257 * at.t + at.chains }
    ensures words { (spread : List ℕ) (m : ℕ) → Reduced (wiring source spread) (slices_in source) (cells_of list.now source.marks) m powers.now at.t at.chains words.old held.old → Reduced (wiring source spread) (slices_in source) (cells_of list.now source.marks) m powers.now result.t result.chains words.new (take result.left held.new) }
{
    if is_table_worth(at, held.len()) {
        return add_by_table(source, list, powers, words, working, held, at);
    }
    let before = held.len();
    let from = Portion {
        t: at.t,
        chains: at.chains,
        place: 0,
    };
    let portion = portions::fill_portion(source, list, powers, words, working, from);
    let place = portion.place;
    let count = working.len() - place;
    let left = elimination::add_columns(held, &working[place..]);
    Progress {
        t: portion.t,
        chains: portion.chains,
        left,
        more: at.more.saturating_sub(count),
        lost: Some(before - left),
    }
}

// Whether it is known that no column that is left changes the words held. It is asked where the last portion changed them, so once for each
// list of words at most, and where so many columns are left that asking is worth it.
fn is_done(source: Source, list: &[u8], words: &[u64], held: &[u64], at: Progress) -> bool
    ensures { result ≡ true → length words.now ≤ 256 → Unchanging (min source.register.m 64) source.register.taps (cells_of list.now source.marks) at.t words.now held.now }
{
    let register = source.register;
    let marks = source.marks;
    if (at.lost.unwrap_or(0) == 0) | (at.more < ASKED_COLUMNS) {
        return false;
    }
    closed_words::is_settled(register, list, marks, at.t, words, held)
}

// All portions, from the words of single bits on. Answers with how many words are left, which stand at the front of `held`. It stops
// where none is left, and where it is known that no column changes them any more.
fn reduce_all(
    source: Source,
    list: &[u8],
    unknowns: usize,
    powers: &[u64],
    words: &mut [u64],
    working: &mut [u64],
    held: &mut [u64],
) -> usize
    requires { (64 ≤ length working.old) × (length words.old ≤ 256) }
    ensures left { result ≤ length held.old }
    ensures words { (spread : List ℕ) (m : ℕ) → Reduced (wiring source spread) (slices_in source) (cells_of list.now source.marks) m powers.now (slices_in source) (length words.old) words.old held.old → Done (wiring source spread) (slices_in source) (cells_of list.now source.marks) m result held.new }
{
    let mut at = Progress {
        t: register::slice_limit(source.s),
        chains: words.len(),
        left: held.len(),
        more: unknowns,
        lost: None,
    };
    // no plainer: it steps by what each portion leaves
    while 0 < at.t {
        let is_empty = at.left == 0;
        if is_empty {
            return 0;
        }
        if is_done(source, list, words, &held[..at.left], at) {
            return at.left;
        }
        at = add_next(
            source,
            list,
            powers,
            words,
            working,
            &mut held[..at.left],
            at,
        );
    }
    at.left
}

// The words of the marked cells' columns, from the words of single bits on. A few columns are made one by one, by the powers of the
// register, where the spread words are a taken set's; for many, all the chains' words are advanced together, by 8 clocks at once where the
// register has as many bits. About how many there are decides only that.
fn reduce_marked(
    taken: Taken,
    list: &[u8],
    marks: Rows,
    working: &mut [u64],
    held: &mut [u64],
) -> usize
    requires { 64 ≤ length working.old }
    ensures left { result ≤ length held.old }
    ensures words { held.old ≡ units (taken_width taken) → (result ≡ length (taken_words taken list.now marks)) × (take result held.new ≡ taken_words taken list.now marks) }
{
    let register = taken.register;
    let s = taken.s;
    let chains = register::chain_limit(taken.n);
    let mut words = taken.spread;
    let unknowns = marked_rows::estimate_marks(list, marks, s);
    let source = Source { register, marks, s };
    let count = unknowns as usize;
    if sparse_columns::needs_sweep(taken, count) {
        if register.m < EIGHT_BITS {
            return reduce_all(
                source,
                list,
                count,
                &[],
                &mut words[..chains],
                working,
                held,
            );
        }
        let table = eight_clocks::eight_on(register);
        return reduce_all(
            source,
            list,
            count,
            &table,
            &mut words[..chains],
            working,
            held,
        );
    }
    let powers = powers::powers(register, 576);
    reduce_all(
        source,
        list,
        count,
        &powers,
        &mut words[..chains],
        working,
        held,
    )
}

// The words of the cells that the rows of a list mark, for the register and the chains of a taken set, from the words of single bits on,
// which stand in `held`; by portions in a working list of 64 places. Answers with how many words are left, which stand at the front of
// `held`. With fewer working places it does nothing.
pub fn reduce_cells(
    taken: Taken,
    list: &[u8],
    marks: Rows,
    working: &mut [u64],
    held: &mut [u64],
) -> usize
    ensures left { result ≤ length held.old }
    ensures words { 64 ≤ length working.old → held.old ≡ units (taken_width taken) → (result ≡ length (taken_words taken list.now marks)) × (take result held.new ≡ taken_words taken list.now marks) }
{
    if working.len() < WORKING_PLACES {
        return held.len();
    }
    reduce_marked(taken, list, marks, working, held)
}
