// Demand 3 at work: a record judged by the plan of its set, and two records judged by one plan.
#![tactic(auto)]

ghost use Rattle.std.specs.Prelude.{◌≡◌, ℕ, length};
ghost use Rattle.word.specs.Reply.{answer, lent};
ghost use Rattle.signing.specs.Signing.{sign_reply};
ghost use Rattle.kept_words.specs.Working.{words_of};
ghost use Rattle.planner.specs.Planning.{working_left, plan_reply};
ghost use Rattle.plan_writer.specs.Writing.{said as said_written};
ghost use Rattle.judge.specs.Verdict.{said};
ghost use Rattle.guarantee.specs.Demand.{AlikeObeying};
ghost use Rattle.guarantee.specs.AtWork.{made_reply, file_after, signed_reply, record_reply};

use judge::Judgment;
use refusals::Refusal;

// What two records get from one plan.
#[derive(Drop)]
pub struct Pair {
    pub first: Result<Judgment, Refusal>,
    pub second: Result<Judgment, Refusal>,
}

// Makes the plan of a set: planning, then the plan writer. Answers with the length of the plan file and writes it over the front
// of `file`; planning writes to `working` and `words`. Meets planning's numbers, then the writer's.
fn make_plan(
    set: &[u8],
    working: &mut [u64],
    words: &mut [u64],
    file: &mut [u8],
) -> Result<usize, Refusal>
    ensures answer { said_written result ≡ made_reply set.now (length working.old) (length words.old) (length file.old) }
    ensures working { working.new ≡ working_left set.now working.old }
    ensures words { words.new ≡ lent (plan_reply set.now (length working.old) (length words.old)) (words_of set.now) words.old }
    ensures file { file.new ≡ file_after set.now (length working.old) (length words.old) file.old }
{
    let planned = planner::plan(set, working, words)?;
    let count = planned.q as usize;
    plan_writer::write_plan(planned.m, &words[..count], planned.expected, file)
}

// Judges a record's signature by a plan file. Meets the set's numbers, 12 and 13, then judging's 19 to 23.
fn judge_signed(set: &[u8], response: &[u8], plan: &[u8]) -> Result<Judgment, Refusal>
    ensures { said result ≡ signed_reply set.now response.now plan.now }
{
    let signature = signing::sign_record(set, response)?;
    judge::judge(plan, signature)
}

// Judges a record by the plan of its set: planning, the plan writer, the record's signature and judging, in turn. Answers with
// the cancelled bits and the verdict. `working` and `words` are as planning leaves them, and `file` as the plan writer does.
// Meets planning's numbers (the set's, then 14, 17 and 18), then the writer's 24, then the record's 12 and 13; where planning and
// signing answer and the output has room for the plan, it answers (proofs/WorkLaws.antt, record_judged).
pub fn judge_record(
    set: &[u8],
    response: &[u8],
    working: &mut [u64],
    words: &mut [u64],
    file: &mut [u8],
) -> Result<Judgment, Refusal>
    ensures answer { said result ≡ record_reply set.now response.now (length working.old) (length words.old) (length file.old) }
    ensures working { working.new ≡ working_left set.now working.old }
    ensures words { words.new ≡ lent (plan_reply set.now (length working.old) (length words.old)) (words_of set.now) words.old }
    ensures file { file.new ≡ file_after set.now (length working.old) (length words.old) file.old }
{
    let length = make_plan(set, working, words, file)?;
    judge_signed(set, response, &file[..length])
}

// Judges two records by one plan, that of their set. Each gets what `judge_record` gives it alone, and the lent lists are left
// as there. Two records that meet no number, are alike in every known cell of the set and obey its ties get the same cancelled bits and
// verdict.
pub fn judge_records(
    set: &[u8],
    first: &[u8],
    second: &[u8],
    working: &mut [u64],
    words: &mut [u64],
    file: &mut [u8],
) -> Pair
    ensures first { said result.first ≡ record_reply set.now first.now (length working.old) (length words.old) (length file.old) }
    ensures second { said result.second ≡ record_reply set.now second.now (length working.old) (length words.old) (length file.old) }
    ensures alike { (y z : ℕ) → sign_reply set.now first.now ≡ answer y → sign_reply set.now second.now ≡ answer z → AlikeObeying set.now first.now second.now → said result.first ≡ said result.second }
    ensures working { working.new ≡ working_left set.now working.old }
    ensures words { words.new ≡ lent (plan_reply set.now (length working.old) (length words.old)) (words_of set.now) words.old }
    ensures file { file.new ≡ file_after set.now (length working.old) (length words.old) file.old }
{
    match make_plan(set, working, words, file) {
        Ok(length) => {
            let plan = &file[..length];
            Pair {
                first: judge_signed(set, first, plan),
                second: judge_signed(set, second, plan),
            }
        }
        Err(refusal) => Pair {
            first: Err(refusal),
            second: Err(refusal),
        },
    }
}
