// Cutting: the slices of a set cut into runs, each of which leaves at least k words, and the control bits of them all. It sees a taken set,
// the columns of one slice after the other and the words of a run. It goes through the slices once: all columns of a run clocked together
// have the rank that they had, so each slice's columns may stand in one frame, whatever run it falls in; and only the slice that doesn't
// fit into a run is put to the words twice.
#![tactic(auto)]

ghost use Rattle.std.specs.Prelude.{◌≡◌, ◌≤◌, length};
ghost use Rattle.set_file.specs.Reading.{TakenFrom};
ghost use Rattle.signatures.specs.Sets.{given};
ghost use Rattle.unclocking.specs.Unclocked.{EightBack};
ghost use Rattle.cutter.specs.Cutting.{bad_share, cut_reply, cuts_after, said_cut};
ghost use Rattle.cutter.specs.Turns.{Sound, seen, SlicedFor};

use column_basis::ColumnBasis;
use refusals::Refusal;
use register::Register;
use rows::Rows;
use set_file::Taken;

// What cutting answers: the number of runs and the control bits in all.
#[derive(Clone, Copy)]
pub struct Cutting {
    pub runs: u64,
    pub bits: u64,
}

// Number 26: whether k isn't 1 to m.
fn is_bad_share(m: u64, k: u64) -> bool
    ensures { result ≡ bad_share m k }
{
    !(1..=m).contains(&k)
}

// The slices one after the other, as many as there are rows of marks to go through: the first slice of each run over the front of `starts`, and
// how many there are; or 27. The chains' words are the spread words at first.
fn pass_slices(
    register: Register,
    table: &[u64; 256],
    list: &[u8],
    marks: Rows,
    slices: u16,
    k: usize,
    words: &mut [u64],
    starts: &mut [u64],
) -> Result<usize, Refusal>
    requires { (slices ≤ 512) × (length words.old ≤ 256) × (length starts.old ≡ 512) }
    ensures { Sound (seen register words.old slices list.now marks).wiring → EightBack (seen register words.old slices list.now marks).wiring table.now → 1 ≤ k → SlicedFor (seen register words.old slices list.now marks) k starts.new result }
{
    let width = register::width_limit(register.m) as usize;
    let mut columns = [0; 256];
    let mut basis = ColumnBasis::single_bits(0);
    let mut runs: usize = 0;
    for t in 0..slices {
        let place = slice_columns::next_columns(
            register,
            table,
            list,
            marks,
            t,
            words,
            &mut columns,
        );
        let turn = run_words::put_slice(&mut basis, &columns[place..], width, k);
        let left = turn.left;
        let leaves_too_few = left < k;
        if leaves_too_few {
            return Err(Refusal::SliceShare);
        }
        starts[runs] = t as u64;
        runs += turn.opened;
    }
    Ok(runs)
}

// The slices of a taken set: the first slice of each run over the front of `starts`, and how many there are; or 27.
fn cut_slices(taken: Taken, set: &[u8], k: usize, starts: &mut [u64]) -> Result<usize, Refusal>
    requires { length starts.old ≡ 512 }
    ensures { TakenFrom set.now taken → 1 ≤ k → SlicedFor (given set.now) k starts.new result }
{
    let register = taken.register;
    let chains = register::chain_limit(taken.n);
    let slices = register::slice_limit(taken.s);
    let marks = set_layout::mark_rows(taken.n);
    let mut words = taken.spread;
    let table = unclocking::eight_back(register);
    pass_slices(
        register,
        &table,
        set,
        marks,
        slices,
        k,
        &mut words[..chains],
        starts,
    )
}

// Cutting of document 02. Answers with the number of runs and the control bits in all, m × k for each run, and writes the first slice of
// each run over the front of `cuts`. Meets the set's numbers, then 26, 27 and 28. A refusal writes nothing. The set's values change nothing
// of what it answers and writes (proofs/Theorems.antt, same_cut_reply, same_cuts_after).
pub fn cut(set: &[u8], k: u64, cuts: &mut [u64]) -> Result<Cutting, Refusal>
    ensures answer { said_cut result ≡ cut_reply set.now k (length cuts.old) }
    ensures cuts { cuts.new ≡ cuts_after set.now k cuts.old }
{
    let taken = set_file::read_set(set)?;
    let m = taken.register.m;
    if is_bad_share(m, k) {
        return Err(Refusal::Share);
    }
    let mut starts = [0; 512];
    let runs = cut_slices(taken, set, k as usize, &mut starts)?;
    if cuts.len() < runs {
        return Err(Refusal::ShortCutList);
    }
    elimination::write_front(cuts, &starts[..runs]);
    let count = runs as u64;
    Ok(Cutting {
        runs: count,
        bits: m * k * count,
    })
}
