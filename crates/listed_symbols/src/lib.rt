// The columns of named symbols in a list of columns: each is written at the place of its symbol's first cell. It sees marked cells, ties and
// their flags, the columns of symbols and a taken set. Every public function is total.
#![tactic(auto)]

ghost use Rattle.std.specs.Prelude.{◌≡◌, ℕ, ◌+◌, ◌<◌, ◌≤◌, min, length};
ghost use Rattle.std.proofs.lemmas.List.Edits.{sets};
ghost use Rattle.rows.specs.Row.{cell};
ghost use Rattle.rows.specs.Lists.{cells_of};
ghost use Rattle.rows.specs.Marks.{listed, total};
ghost use Rattle.ties.specs.Ties.{ties_in};
ghost use Rattle.ties.specs.Symbols.{flag};
ghost use Rattle.register.specs.Circuit.{Circuit, chains};
ghost use Rattle.set_file.specs.Reading.{taken_circuit};
ghost use Rattle.signatures.specs.Signature.{column};
ghost use Rattle.signatures.specs.Symbols.{symbol_column, column_at, listing};
ghost use Rattle.symbol_columns.specs.Powered.{SymbolsFrom, FlagsIn};
ghost use Rattle.listed_symbols.specs.Heads.{HeadsIn};

use rows::Rows;
use set_file::Taken;
use symbol_columns::{CellColumns, SymbolColumns};

// The number of marked cells before chain c in a row.
fn cells_before(row: &[u8], c: u16) -> u64
    ensures { (result ≡ total c (cell row.now)) × (result ≤ c) }
{
    (0..c).map(|d| rows::cell_at(row, d as usize)).sum()
}

// The number of marked cells among the first 256 of each row before row t, where `before` is that of row `at`: the rows from there on are
// counted, or all of them where t comes before it.
fn slices_before(list: &[u8], rows: Rows, at: u16, before: u64, t: u16) -> u64
    requires { before ≡ total at (λ v. total 256 (cells_of list.now rows v)) }
    ensures { (result ≡ total t (λ v. total 256 (cells_of list.now rows v))) × (result ≤ 16777216) }
{
    if t < at {
        return marked_rows::count_marks(list, rows, t);
    }
    let stride = rows.stride as usize;
    let passed = at as usize;
    let rest = numbers::part(list, stride * passed, list.len());
    before + marked_rows::count_marks(rest, rows, t - at)
}

// Writes the column of the symbol of entry i at the place of its cell, where its flag isn't 0 and the list has the place: the marked cells
// before it are `before`, in the slices before its own, and those of its own before its chain.
fn set_symbol(
    symbols: SymbolColumns,
    i: u16,
    flagged: u64,
    row: &[u8],
    before: u64,
    columns: &mut [u64],
)
    requires { before ≤ 16777216 }
    ensures { (k : Circuit) (count : ℕ) → SymbolsFrom k symbols.entry.cells.slices symbols.entry.cells.powers.now symbols.entry.cells.spread.now symbols.entry.cells.width symbols.entry.numbers.now (ties_in symbols.entry.ties.now count) → i < count → flagged ≡ flag (ties_in symbols.entry.ties.now count) i → columns.new ≡ sets columns.old (before + total ((ties_in symbols.entry.ties.now count).chain i) (cell row.now)) (listed (flag (ties_in symbols.entry.ties.now count) i) (symbol_column k symbols.entry.cells.slices (ties_in symbols.entry.ties.now count) ((ties_in symbols.entry.ties.now count).symbol i))) }
{
    let is_later = flagged == 0;
    if is_later {
        return;
    }
    let place = (before + cells_before(row, ties::tie_chain(symbols.ties, i))) as usize;
    if columns.len() <= place {
        return;
    }
    columns[place] = symbols.column(i);
}

// Writes the columns of the named symbols at the places of their first cells, from the flags of the entries. The rows of the list mark the
// cells that the columns are listed for; none is counted for an entry that opens no symbol.
fn set_named(symbols: SymbolColumns, flags: &[u64], list: &[u8], rows: Rows, columns: &mut [u64])
    ensures { (k : Circuit) (count : ℕ) → SymbolsFrom k symbols.entry.cells.slices symbols.entry.cells.powers.now symbols.entry.cells.spread.now symbols.entry.cells.width symbols.entry.numbers.now (ties_in symbols.entry.ties.now count) → FlagsIn flags.now (ties_in symbols.entry.ties.now count) → HeadsIn k symbols.entry.cells.slices (cells_of list.now rows) (ties_in symbols.entry.ties.now count) → columns.old ≡ listing (column k symbols.entry.cells.slices) (cells_of list.now rows) (chains k) symbols.entry.cells.slices → columns.new ≡ listing (column_at k symbols.entry.cells.slices (ties_in symbols.entry.ties.now count)) (cells_of list.now rows) (chains k) symbols.entry.cells.slices }
{
    let mut at = 0;
    let mut before = 0;
    for i in 0..symbols.count() {
        let flagged = word::word_at(flags, i as usize);
        if flagged == 0 {
            continue;
        }
        let t = ties::tie_slice(symbols.ties, i);
        before = slices_before(list, rows, at, before, t);
        at = t;
        let row = rows::row_of(list, rows, t);
        set_symbol(symbols, i, flagged, row, before, columns);
    }
}

// In a list of the columns of the cells that the rows mark, by slice and then by chain, writes the column of each named symbol at the place of
// its first cell, by the flags of the first `count` entries (`symbol_flags::opening_flags`). So it is where the rows mark the first cell of each
// symbol and no other of its cells, and the spread words and the entries are a taken set's; else the words that it writes are no columns, and
// may stand anywhere in the list.
pub fn set_symbols(
    taken: Taken,
    ties: &[u8],
    count: u16,
    flags: &[u64],
    list: &[u8],
    rows: Rows,
    columns: &mut [u64],
)
    ensures { HeadsIn (taken_circuit taken) (min taken.s 512) (cells_of list.now rows) (ties_in ties.now count) → FlagsIn flags.now (ties_in ties.now count) → columns.old ≡ listing (column (taken_circuit taken) (min taken.s 512)) (cells_of list.now rows) (chains (taken_circuit taken)) (min taken.s 512) → columns.new ≡ listing (column_at (taken_circuit taken) (min taken.s 512) (ties_in ties.now count)) (cells_of list.now rows) (chains (taken_circuit taken)) (min taken.s 512) }
{
    let powers = powers::powers(taken.register, 576);
    let cells = CellColumns::of(&taken, &powers);
    let numbers = symbol_flags::symbol_numbers(ties, count);
    let symbols = SymbolColumns {
        cells,
        ties,
        numbers: &numbers[..symbol_flags::tie_limit(count) as usize],
    };
    set_named(symbols, flags, list, rows, columns);
}
