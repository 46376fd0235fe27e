// The plan printer's text of a set, made in a lent buffer: planning, then the lines. It sees the set file, planning and the lines of the
// text; the output always has room for them.
#![tactic(auto)]

ghost use Rattle.std.specs.Prelude.{◌≡◌, length, MatchResult};
ghost use Rattle.word.specs.Reply.{refusal, front, lent};
ghost use Rattle.refusals.specs.Refusals.{number};
ghost use Rattle.kept_words.specs.Working.{words_of};
ghost use Rattle.planner.specs.Planning.{working_left, plan_reply};
ghost use Rattle.plan_text.specs.PlanText.{plan_text};

use refusals::Refusal;

// The lines of a set's plan over the front of `out`. Answers with their length. Where planning refuses, nothing is written there.
fn print_lines(
    set: &[u8],
    working: &mut [u64],
    words: &mut [u64],
    out: &mut [u8; 4096],
) -> Result<usize, Refusal>
    ensures lines { MatchResult result (λ end. (end ≡ length (plan_text set.now (length working.old) (length words.old))) × (out.new ≡ front (plan_text set.now (length working.old) (length words.old)) out.old)) (λ e. (refusal (number e) ≡ plan_reply set.now (length working.old) (length words.old)) × (out.new ≡ out.old)) }
    ensures working { working.new ≡ working_left set.now working.old }
    ensures words { words.new ≡ lent (plan_reply set.now (length working.old) (length words.old)) (words_of set.now) words.old }
{
    let taken = set_file::read_set(set)?;
    let planned = planner::plan(set, working, words)?;
    let n = taken.n;
    let s = taken.s;
    let q = planned.q;
    let count = q as usize;
    let unknowns = marked_rows::count_marks(set, set_layout::mark_rows(n), s);
    let words_at = plan_lines::put_set_line(out, 0, planned.m, n as u64, s as u64, unknowns);
    let end_at = plan_lines::put_word_lines(out, words_at, &words[..count], planned.expected);
    Ok(plan_lines::put_end_line(out, end_at, q))
}

// The plan printer's text for a set. Answers with its length and writes it over the front of `out`, which always holds it; the
// rest of `out` stays. A refusal is one line, with the number that planning meets: the set's numbers, then 14, 17 and 18.
// The two lent lists are left as planning leaves them.
pub fn print_plan(set: &[u8], working: &mut [u64], words: &mut [u64], out: &mut [u8; 4096]) -> usize
    ensures count { result ≡ length (plan_text set.now (length working.old) (length words.old)) }
    ensures text { out.new ≡ front (plan_text set.now (length working.old) (length words.old)) out.old }
    ensures working { working.new ≡ working_left set.now working.old }
    ensures words { words.new ≡ lent (plan_reply set.now (length working.old) (length words.old)) (words_of set.now) words.old }
{
    match print_lines(set, working, words, out) {
        Ok(end) => end,
        Err(refusal) => plan_lines::put_refused_line(out, 0, refusal.number()),
    }
}
