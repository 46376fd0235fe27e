// Judging a signature by a plan file. It sees words and the check of a plan file.
#![tactic(auto)]

ghost use Rattle.std.specs.Prelude.{◌≡◌, true, false, not, ◌||◌, ℕ, ◌≤◌, ltb, length, MatchOption};
ghost use Rattle.numbers.specs.Bytes.{words_at};
ghost use Rattle.word.specs.Word.{beyond};
ghost use Rattle.word.specs.Parities.{parities};
ghost use Rattle.combinations.specs.Reduced.{is_reduced};
ghost use Rattle.plan_file.specs.Layout.{words_place, again_at, file_words};
ghost use Rattle.plan_file.specs.Checking.{Listed};
ghost use Rattle.judge.specs.Verdict.{judge_reply, said};

use refusals::Refusal;

// Whether a signature agrees with a plan: it passes, or fails at a word's index, the first that disagrees.
#[derive(Clone, Copy)]
pub enum Verdict {
    Passes,
    Fails { index: u64 },
}

// What judging answers: the cancelled bits as one word, bit i for word i, and the verdict.
#[derive(Clone, Copy)]
pub struct Judgment {
    pub cancelled: u64,
    pub verdict: Verdict,
}

// How far one pass over a plan's words came: how many of them can follow those before them in a reduced list, the highest bits of
// these, and their parities with a signature, bit i for word i.
#[derive(Clone, Copy)]
struct Pass {
    passed: u16,
    tops: u64,
    bits: u64,
}

// One pass over the first q words of a plan, at most 64 and all there, each read once where it stands. Both ways out hand back what
// the loop has, so that it makes nothing for either: where the loop makes an Option, judging takes 1.10 times the instructions.
fn pass_words(plan: &[u8], q: u16, signature: u64) -> Pass
    requires { (q ≤ 64) × (again_at q ≤ length plan.now) }
    ensures list { (m : ℕ) → (ltb result.passed q || beyond m result.tops) ≡ not (is_reduced m (words_at plan.now words_place q)) }
    ensures cancelled { ltb result.passed q ≡ false → result.bits ≡ parities (words_at plan.now words_place q) signature }
{
    let mut tops: u64 = 0;
    let mut bits: u64 = 0;
    for i in 0..q {
        let w = plan_file::plan_word(plan, i);
        if !reduced_list::is_next(tops, w) {
            return Pass {
                passed: i,
                tops,
                bits,
            };
        }
        tops = reduced_list::with_highest(tops, w);
        bits += word::shared_parity(w, signature) << i;
    }
    Pass {
        passed: q,
        tops,
        bits,
    }
}

// The cancelled bits of the first q words of a plan, at most 64 and all there; nothing where these aren't a reduced list for m.
fn cancel_words(plan: &[u8], m: u64, q: u16, signature: u64) -> Option<u64>
    requires { (q ≤ 64) × (again_at q ≤ length plan.now) }
    ensures { MatchOption result (is_reduced m (words_at plan.now words_place q) ≡ false) (λ bits. (is_reduced m (words_at plan.now words_place q) ≡ true) × (bits ≡ parities (words_at plan.now words_place q) signature)) }
{
    let pass = pass_words(plan, q, signature);
    let is_bad = (pass.passed < q) | word::is_beyond(m, pass.tops);
    if is_bad {
        return None;
    }
    Some(pass.bits)
}

// The cancelled bits of a plan's words; nothing where number 21 applies, or where there are more than 64 words or not all of them.
fn find_bits(plan: &[u8], signature: u64) -> Option<u64>
    ensures { MatchOption result (Listed plan.now true) (λ bits. Listed plan.now false × (bits ≡ parities (file_words plan.now) signature)) }
{
    let m = plan_file::width(plan);
    let q = plan_file::count(plan) as u16;
    if 64 < q {
        return None;
    }
    if plan.len() < 4 + 8 * (q as usize) {
        return None;
    }
    cancel_words(plan, m, q, signature)
}

// Judging of document 01. Answers with the cancelled bits as one word, bit i for word i, and the verdict: the lowest bit in
// which they differ from the expected bits is the index of the first word that disagrees. Meets 19, 20, 21, 22 and 23, in
// that order.
#[tactic(auto, using(crate::proofs::CallLaws::unsound_reply))]
pub fn judge(plan: &[u8], signature: u64) -> Result<Judgment, Refusal>
    ensures { said result ≡ judge_reply plan.now signature }
{
    let found = find_bits(plan, signature);
    let head = plan_file::check_listed(plan, found.is_none())?;
    if word::is_beyond(head.m, signature) {
        return Err(Refusal::Signature);
    }
    // A plan that was taken has words that are a reduced list, so their bits were found.
    let cancelled = found.unwrap();
    let differing = cancelled ^ head.expected;
    let agrees = differing == 0;
    let verdict = if agrees {
        Verdict::Passes
    } else {
        Verdict::Fails {
            index: u64::from(differing.trailing_zeros()),
        }
    };
    Ok(Judgment { cancelled, verdict })
}
