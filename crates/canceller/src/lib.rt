// The C boundary (include/canceller.h): one function for each call of documents 01 and 02, under its C name. A call makes the library's
// call and hands its answer back as crossing's struct; it sees every crate whose call it makes, and nothing of the guarantee.
#![tactic(auto)]

ghost use Rattle.std.specs.Prelude.{◌≡◌, length};
ghost use Rattle.word.specs.Reply.{lent};
ghost use Rattle.combinations.specs.Reduced.{reduced_list};
ghost use Rattle.elimination.specs.Elimination.{elimination_reply};
ghost use Rattle.register.specs.Clock.{clock_reply};
ghost use Rattle.set_file.specs.Reading.{set_reply, spread_beside};
ghost use Rattle.slice_rows.specs.Rows.{value_reply, mark_reply, ties_reply};
ghost use Rattle.set_content.specs.Content.{set_content};
ghost use Rattle.set_writer.specs.Writing.{set_write_reply, set_bytes};
ghost use Rattle.signing.specs.Signing.{sign_reply};
ghost use Rattle.columns.specs.Listing.{list_reply, columns_after};
ghost use Rattle.cutter.specs.Cutting.{cut_reply, cuts_after};
ghost use Rattle.plan_file.specs.Layout.{file_words};
ghost use Rattle.plan_file.specs.Reading.{plan_file_reply};
ghost use Rattle.plan_writer.specs.Writing.{plan_content, plan_bytes, plan_write_reply};
ghost use Rattle.expectation.specs.Expecting.{expect_reply};
ghost use Rattle.kept_words.specs.Working.{words_of};
ghost use Rattle.planner.specs.Planning.{working_left, words_reply, plan_reply};
ghost use Rattle.judge.specs.Verdict.{judge_reply};
ghost use Rattle.crossing.specs.Boundary.{set_of, stretch_of, written_of, register_of, clocked_of, signed_of, listed_of, eliminated_of, worded_of, expected_to, planned_of, read_of, cutting_of, judged_of};

use crossing::{
    CClocked, CCutting, CEliminated, CExpected, CJudged, CListed, CPlanned, CSet, CSigned,
    CStretch, CWorded, CWritten,
};
use register::Register;

// The set reader. Meets 1, 2, 3, 25, 4 to 10 and 29 to 31: the set's numbers.
#[unsafe(no_mangle)]
pub extern "C" fn canceller_read_set(set: &[u8]) -> CSet
    ensures { result ≡ set_of (set_reply set.now) (spread_beside set.now) }
{
    CSet::from(set_file::read_set(set))
}

// Where a slice's value row stands in the set. Meets the set's numbers and 11.
#[unsafe(no_mangle)]
pub extern "C" fn canceller_value_row(set: &[u8], slice: u64) -> CStretch
    ensures { result ≡ stretch_of (value_reply set.now slice) }
{
    CStretch::from(slice_rows::value_place(set, slice))
}

// Where a slice's row of unknown marks stands in the set. Meets the set's numbers and 11.
#[unsafe(no_mangle)]
pub extern "C" fn canceller_mark_row(set: &[u8], slice: u64) -> CStretch
    ensures { result ≡ stretch_of (mark_reply set.now slice) }
{
    CStretch::from(slice_rows::mark_place(set, slice))
}

// Where the entries of a set's ties stand in it, without their count. Meets the set's numbers.
#[unsafe(no_mangle)]
pub extern "C" fn canceller_ties(set: &[u8]) -> CStretch
    ensures { result ≡ stretch_of (ties_reply set.now) }
{
    CStretch::from(slice_rows::ties_place(set))
}

// The set writer. Meets 2, 3, 25, 4, 6, 7, 8, 9, 10, 29, 30, 31 and 24; the file over the front of `out`.
#[unsafe(no_mangle)]
pub extern "C" fn canceller_write_set(
    m: u64,
    taps: u64,
    inversion: u64,
    spread: &[u64],
    values: &[u8],
    marks: &[u8],
    s: u64,
    ties: &[u8],
    out: &mut [u8],
) -> CWritten
    ensures answer { result ≡ written_of (set_write_reply (set_content m taps inversion spread.now values.now marks.now s ties.now) (length out.old)) }
    ensures file { out.new ≡ lent (set_write_reply (set_content m taps inversion spread.now values.now marks.now s ties.now) (length out.old)) (set_bytes (set_content m taps inversion spread.now values.now marks.now s ties.now)) out.old }
{
    let written = set_writer::write_set(m, taps, inversion, spread, values, marks, s, ties, out);
    CWritten::from(written)
}

// One clock of a register. Meets 2, 3, 25, 4, 6, 8, 9 and 23; a refusal hands the state back as it came.
#[unsafe(no_mangle)]
pub extern "C" fn canceller_clock(
    m: u64,
    taps: u64,
    inversion: u64,
    state: u64,
    spread: &[u64],
    row: &[u8],
) -> CClocked
    ensures { result ≡ clocked_of (clock_reply (register_of m taps inversion state) spread.now row.now) state }
{
    let register = Register {
        m,
        taps,
        inversion,
        state,
    };
    crossing::clocked_of(register.clock(spread, row), state)
}

// A record's signature. Meets the set's numbers, 12 and 13.
#[unsafe(no_mangle)]
pub extern "C" fn canceller_sign(set: &[u8], record: &[u8]) -> CSigned
    ensures { result ≡ signed_of (sign_reply set.now «record».now) }
{
    CSigned::from(signing::sign_record(set, record))
}

// The columns of a set. Meets the set's numbers and 14; the columns over the front of the list.
#[unsafe(no_mangle)]
pub extern "C" fn canceller_list_columns(set: &[u8], columns: &mut [u64]) -> CListed
    ensures answer { result ≡ listed_of (list_reply set.now (length columns.old)) }
    ensures list { columns.new ≡ columns_after set.now columns.old }
{
    CListed::from(columns::list_columns(set, columns))
}

// The elimination. Meets 2 and 15 to 18; the words over the front of the list.
#[unsafe(no_mangle)]
pub extern "C" fn canceller_eliminate(m: u64, columns: &[u64], words: &mut [u64]) -> CEliminated
    ensures answer { result ≡ eliminated_of (elimination_reply m columns.now (length words.old)) }
    ensures list { words.new ≡ lent (elimination_reply m columns.now (length words.old)) (reduced_list m columns.now) words.old }
{
    CEliminated::from(elimination::eliminate(m, columns, words))
}

// The words of a set, without expected bits. Meets the set's numbers, 14, 17 and 18; the lists as planning leaves them.
#[unsafe(no_mangle)]
pub extern "C" fn canceller_plan_words(
    set: &[u8],
    working: &mut [u64],
    words: &mut [u64],
) -> CWorded
    ensures answer { result ≡ worded_of (words_reply set.now (length working.old) (length words.old)) }
    ensures working { working.new ≡ working_left set.now working.old }
    ensures words { words.new ≡ lent (words_reply set.now (length working.old) (length words.old)) (words_of set.now) words.old }
{
    CWorded::from(planner::plan_words(set, working, words))
}

// The expected bits of a list of words for a set. Meets the set's numbers, 20 and 21.
#[unsafe(no_mangle)]
pub extern "C" fn canceller_expect(set: &[u8], words: &[u64]) -> CExpected
    ensures { result ≡ expected_to (expect_reply set.now words.now) }
{
    CExpected::from(expectation::expect(set, words))
}

// Planning. Meets the set's numbers, 14, 17 and 18; the words over the front of their list; past 14 the first places of the working list,
// 64 and one for each named symbol, hold 0.
#[unsafe(no_mangle)]
pub extern "C" fn canceller_plan(set: &[u8], working: &mut [u64], words: &mut [u64]) -> CPlanned
    ensures answer { result ≡ planned_of (plan_reply set.now (length working.old) (length words.old)) }
    ensures working { working.new ≡ working_left set.now working.old }
    ensures words { words.new ≡ lent (plan_reply set.now (length working.old) (length words.old)) (words_of set.now) words.old }
{
    CPlanned::from(planner::plan(set, working, words))
}

// Cutting: the runs of a set that leave at least k words each. Meets the set's numbers, 26, 27 and 28; the first slice of each run over
// the front of the list.
#[unsafe(no_mangle)]
pub extern "C" fn canceller_cut(set: &[u8], k: u64, cuts: &mut [u64]) -> CCutting
    ensures answer { result ≡ cutting_of (cut_reply set.now k (length cuts.old)) }
    ensures list { cuts.new ≡ cuts_after set.now k cuts.old }
{
    CCutting::from(cutter::cut(set, k, cuts))
}

// The plan writer. Meets 19, 20, 21, 22 and 24; the file over the front of `out`.
#[unsafe(no_mangle)]
pub extern "C" fn canceller_write_plan(
    m: u64,
    words: &[u64],
    expected: u64,
    out: &mut [u8],
) -> CWritten
    ensures answer { result ≡ written_of (plan_write_reply (plan_content m words.now expected) (length out.old)) }
    ensures file { out.new ≡ lent (plan_write_reply (plan_content m words.now expected) (length out.old)) (plan_bytes (plan_content m words.now expected)) out.old }
{
    CWritten::from(plan_writer::write_plan(m, words, expected, out))
}

// The plan reader. Meets 19 to 22 and then 18; the words over the front of the list.
#[unsafe(no_mangle)]
pub extern "C" fn canceller_read_plan(plan: &[u8], words: &mut [u64]) -> CPlanned
    ensures answer { result ≡ read_of (plan_file_reply plan.now (length words.old)) }
    ensures list { words.new ≡ lent (plan_file_reply plan.now (length words.old)) (file_words plan.now) words.old }
{
    CPlanned::from(plan_file::read_plan(plan, words))
}

// Judging. Meets 19 to 23.
#[unsafe(no_mangle)]
pub extern "C" fn canceller_judge(plan: &[u8], signature: u64) -> CJudged
    ensures { result ≡ judged_of (judge_reply plan.now signature) }
{
    CJudged::from(judge::judge(plan, signature))
}
