// Columns: those of marked cells, from rows of marks that stand in a list of bytes, or those of a set file's symbols. It sees the three ways to
// make them and what they cost, the columns of named symbols in a list, and the set file. Every function is total.
#![tactic(auto)]

ghost use Rattle.std.specs.Prelude.{◌≡◌, min, length};
ghost use Rattle.rows.specs.Lists.{cells_of};
ghost use Rattle.ties.specs.Ties.{ties_in};
ghost use Rattle.marked_words.specs.Back.{back};
ghost use Rattle.register.specs.Circuit.{chains};
ghost use Rattle.set_layout.specs.Layout.{tie_count_of};
ghost use Rattle.set_file.specs.Reading.{taken_circuit, TakenFrom};
ghost use Rattle.signatures.specs.Columns.{columns_below};
ghost use Rattle.signatures.specs.Symbols.{column_at, listing};
ghost use Rattle.symbol_columns.specs.Powered.{FlagsIn};
ghost use Rattle.listed_symbols.specs.Heads.{HeadsIn};
ghost use Rattle.columns.specs.Listing.{list_reply, columns_after, said_listed};

use refusals::Refusal;
use rows::Rows;
use set_file::Taken;

// Writes the columns of the marked cells over the end of the list, by slice and then by chain, for a register and chains as a taken
// set has them. There are three ways, and the one that costs least is taken: a few columns are made one by one, by the powers of the
// register; more of them by all the chains' words advanced by 8 clocks for every eighth slice, and those of marked cells by the clocks
// between; and where most cells are marked, all the chains' words are advanced by one clock for each slice. It meets no number: a width
// counts as at most 64, the slices as at most 512, and a row past the end has no mark. Where the list is shorter than the columns, the
// first of them are lost.
pub fn fill_columns(taken: Taken, list: &[u8], marks: Rows, columns: &mut [u64])
    ensures { columns.new ≡ back (columns_below (taken_circuit taken) (min taken.s 512) (cells_of list.now marks) (min taken.s 512)) columns.old }
{
    if column_costs::eights_least(taken.register.m, columns.len(), taken.n, taken.s) {
        eighth_columns::fill_by_eights(taken, list, marks, columns);
        return;
    }
    if column_costs::ones_less(taken.register.m, columns.len(), taken.n, taken.s) {
        sparse_columns::fill_few(taken, list, marks, columns);
        return;
    }
    swept_columns::fill_swept(taken, list, marks, columns);
}

// Writes the columns of the symbols over the list, one for each cell that the rows mark, by slice and then by chain: an unnamed cell's own, and
// at the first cell of a named symbol the symbol's, by the flags of the first `count` entries.
fn fill_named(
    taken: Taken,
    ties: &[u8],
    count: u16,
    flags: &[u64],
    list: &[u8],
    rows: Rows,
    columns: &mut [u64],
)
    ensures { HeadsIn (taken_circuit taken) (min taken.s 512) (cells_of list.now rows) (ties_in ties.now count) → FlagsIn flags.now (ties_in ties.now count) → length (columns_below (taken_circuit taken) (min taken.s 512) (cells_of list.now rows) (min taken.s 512)) ≡ length columns.old → columns.new ≡ listing (column_at (taken_circuit taken) (min taken.s 512) (ties_in ties.now count)) (cells_of list.now rows) (chains (taken_circuit taken)) (min taken.s 512) }
{
    fill_columns(taken, list, rows, columns);
    listed_symbols::set_symbols(taken, ties, count, flags, list, rows, columns);
}

// The same as `list_columns` for a taken set with entries of ties: the marks of a symbol's cells but its first are taken out of a copy of the
// rows, and the cells that are left have a column each.
fn list_named(taken: Taken, set: &[u8], count: u16, columns: &mut [u64]) -> Result<u64, Refusal>
    ensures { TakenFrom set.now taken → count ≡ tie_count_of set.now → (said_listed result ≡ list_reply set.now (length columns.old)) × (columns.new ≡ columns_after set.now columns.old) }
{
    let n = taken.n;
    let s = taken.s;
    let ties = set_layout::tie_bytes(set);
    let flags = symbol_flags::opening_flags(ties, count);
    let marks = set_layout::mark_rows(n);
    let heads = free_marks::unmark(set, marks, n, s, ties, count, &flags[..]);
    let rows = Rows::packed(n);
    let found = marked_rows::count_marks(&heads[..], rows, s);
    if (columns.len() as u64) < found {
        return Err(Refusal::ShortColumnList);
    }
    let end = found as usize;
    fill_named(
        taken,
        ties,
        count,
        &flags[..],
        &heads[..],
        rows,
        &mut columns[..end],
    );
    Ok(found)
}

// The columns of a set's symbols, by slice and then by chain, at the front of the lent list, and how many there are. It meets the set's
// numbers, then 14; a refusal leaves the list as it was. In a set without entries of ties each unknown cell is a symbol.
pub fn list_columns(set: &[u8], columns: &mut [u64]) -> Result<u64, Refusal>
    ensures result_value { said_listed result ≡ list_reply set.now (length columns.old) }
    ensures columns_after { columns.new ≡ columns_after set.now columns.old }
{
    let taken = set_file::read_set(set)?;
    let count = set_layout::tie_count(set);
    let has_ties = count != 0;
    if has_ties {
        return list_named(taken, set, count, columns);
    }
    let marks = set_layout::mark_rows(taken.n);
    let symbols = marked_rows::count_marks(set, marks, taken.s);
    let is_short = (columns.len() as u64) < symbols;
    if is_short {
        return Err(Refusal::ShortColumnList);
    }
    let end = symbols as usize;
    fill_columns(taken, set, marks, &mut columns[..end]);
    Ok(symbols)
}
