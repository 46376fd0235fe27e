// The words that a run leaves, slice by slice. From one slice to the next they stand as a basis of the run's columns: how many words are left
// is all that is asked of them, and that the dead bits say. It sees a basis of columns.
#![tactic(auto)]

ghost use Rattle.std.specs.Prelude.{List, ℕ, ◌≤◌};
ghost use Rattle.combinations.specs.Step.{steps, units};
ghost use Rattle.column_basis.specs.Basis.{Held};
ghost use Rattle.run_words.specs.Joining.{SlicePut};

use column_basis::ColumnBasis;

// What one slice comes to: so many words are left of the run, and 1 run more was opened or 0. No plainer as a bool: the caller adds it up.
#[derive(Drop)]
pub struct Turn {
    pub left: usize,
    pub opened: usize,
}

// The columns of a slice that opens a run, put to the words of single bits. Beside these the basis is the 64 single bits, with those from the
// width on dead.
fn open_run(run: &mut ColumnBasis, columns: &[u64], width: usize)
    ensures { width ≤ 64 → Held (steps columns.now (units width)) run.new.words run.new.dead }
{
    *run = ColumnBasis::single_bits(width);
    run.take_columns(columns);
}

// The columns of one slice put to the words that the run so far leaves, beside which the basis stands; where that leaves fewer
// than k, to the words of single bits, for the slice then opens a run.
pub fn put_slice(basis: &mut ColumnBasis, columns: &[u64], width: usize, k: usize) -> Turn
    ensures one { result.opened ≤ 1 }
    ensures turn { width ≤ 64 → (h : List ℕ) → Held h basis.old.words basis.old.dead → SlicePut columns.now width k h basis.new.words basis.new.dead result }
{
    basis.take_columns(columns);
    let left = turned_words::held_count(basis.dead);
    let is_enough = k <= left;
    if is_enough {
        return Turn { left, opened: 0 };
    }
    open_run(basis, columns, width);
    Turn {
        left: turned_words::held_count(basis.dead),
        opened: 1,
    }
}
