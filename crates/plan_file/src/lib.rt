// The plan file of document 01: its parts, the check that every call makes of one, and its reader. It sees words and the test for a
// reduced list, and knows nothing of how a plan was made.
#![tactic(auto)]

ghost use Rattle.std.specs.Prelude.{◌≡◌, not, ◌+◌, ◌*◌, ◌<◌, ◌≤◌, length};
ghost use Rattle.numbers.specs.Bytes.{word_at};
ghost use Rattle.word.specs.Reply.{first_of, front, lent};
ghost use Rattle.refusals.specs.Refusals.{refused};
ghost use Rattle.combinations.specs.Reduced.{is_reduced};
ghost use Rattle.plan_file.specs.Layout.{words_place, again_at, plan_length, file_width, file_count, file_words, file_expected};
ghost use Rattle.plan_file.specs.Checking.{bad_plan_width, bad_plan_count, bad_plan_end, Listed, plan_file_tests, plan_check_reply, said_checked};
ghost use Rattle.plan_file.specs.Reading.{plan_file_reply, said};

use refusals::Refusal;

// What a plan file holds beside its words: m, q and the expected bits as one word.
#[derive(Clone, Copy)]
pub struct PlanHead {
    pub m: u64,
    pub q: u64,
    pub expected: u64,
}

// m, as the plan has it; a byte past the end counts as 0.
pub fn width(plan: &[u8]) -> u64
    ensures { (result ≡ file_width plan.now) × (result < 65536) }
{
    numbers::read_count(plan, 0)
}

// q, as the plan has it; a byte past the end counts as 0.
pub fn count(plan: &[u8]) -> u64
    ensures { (result ≡ file_count plan.now) × (result < 65536) }
{
    numbers::read_count(plan, 2)
}

// Word i of a plan that doesn't end before its last byte, in one load. It meets no number.
pub fn plan_word(plan: &[u8], i: u16) -> u64
    requires { words_place + 8 * i + 8 ≤ length plan.now }
    ensures { result ≡ word_at plan.now (words_place + 8 * i) }
{
    let place = i as usize;
    numbers::eight_bytes(plan, 4 + 8 * place)
}

// The expected bits as one word, of a plan of 1 to 64 words that has the exact length: they end with it, so they are the highest of its
// last 8 bytes. It meets no number.
fn expected_bits(plan: &[u8]) -> u64
    requires { (length plan.now ≡ plan_length (file_count plan.now)) × (1 ≤ file_count plan.now) × (file_count plan.now ≤ 64) }
    ensures { result ≡ file_expected plan.now }
{
    let q = count(plan) as usize;
    let others = 8 - (q + 7) / 8;
    numbers::eight_bytes(plan, plan.len() - 8) >> (8 * others)
}

// Number 19: whether the plan has fewer than 2 bytes, or its m isn't 1 to 64.
fn is_bad_plan_width(plan: &[u8]) -> bool
    ensures { result ≡ bad_plan_width plan.now }
{
    (plan.len() < 2) | word::is_bad_width(width(plan))
}

// Number 20: whether the word count is absent, 0 or above m, or the plan ends before its last word.
fn is_bad_plan_count(plan: &[u8]) -> bool
    ensures { result ≡ bad_plan_count plan.now }
{
    let m = width(plan);
    let q = count(plan);
    (plan.len() < 4) | reduced_list::is_bad_word_count(m, q) | (plan.len() < 4 + 8 * (q as usize))
}

// Number 21, for a plan that doesn't end before its last word: whether its words aren't a reduced list for m, by one pass over
// them where they stand.
fn is_bad_word_list(plan: &[u8]) -> bool
    ensures { again_at (file_count plan.now) ≤ length plan.now → result ≡ not (is_reduced (file_width plan.now) (file_words plan.now)) }
{
    let m = width(plan);
    let q = count(plan) as u16;
    if plan.len() < 4 + 8 * (q as usize) {
        return true;
    }
    let mut seen: u64 = 0;
    for i in 0..q {
        let w = plan_word(plan, i);
        if !reduced_list::is_next(seen, w) {
            return true;
        }
        seen = reduced_list::with_highest(seen, w);
    }
    word::is_beyond(m, seen)
}

// Number 22, for a plan of 1 to 64 words: whether the second count is absent or isn't q, the length isn't exact, or a spare bit is
// set.
fn is_bad_plan_end(plan: &[u8]) -> bool
    requires { (1 ≤ file_count plan.now) × (file_count plan.now ≤ 64) }
    ensures { result ≡ bad_plan_end plan.now }
{
    let q = count(plan);
    let places = q as usize;
    if plan.len() != 6 + 8 * places + (places + 7) / 8 {
        return true;
    }
    (numbers::read_count(plan, 4 + 8 * places) != q) | word::is_beyond(q, expected_bits(plan))
}

// Refuses a plan file by the first of the numbers 19 to 22 that applies, where `bad` says whether 21 does.
fn check_parts(plan: &[u8], bad: bool) -> Result<(), Refusal>
    requires { Listed plan.now bad }
    ensures { refused result ≡ first_of (plan_file_tests plan.now) }
{
    if is_bad_plan_width(plan) {
        return Err(Refusal::PlanWidth);
    }
    if is_bad_plan_count(plan) {
        return Err(Refusal::WordCount);
    }
    if bad {
        return Err(Refusal::WordList);
    }
    if is_bad_plan_end(plan) {
        return Err(Refusal::PlanEnd);
    }
    Ok(())
}

// The check of a plan file, by a caller that has gone over its words: `bad` says whether 21 applies. Answers with m, q and the
// expected bits as one word. Meets 19, 20, 21 and 22, in that order.
pub fn check_listed(plan: &[u8], bad: bool) -> Result<PlanHead, Refusal>
    requires { Listed plan.now bad }
    ensures { said_checked result ≡ plan_check_reply plan.now }
{
    check_parts(plan, bad)?;
    Ok(PlanHead {
        m: width(plan),
        q: count(plan),
        expected: expected_bits(plan),
    })
}

// The check of a plan file. Answers with m, q and the expected bits as one word. Meets 19, 20, 21 and 22, in that order.
pub fn check_plan(plan: &[u8]) -> Result<PlanHead, Refusal>
    ensures { said_checked result ≡ plan_check_reply plan.now }
{
    check_listed(plan, is_bad_word_list(plan))
}

// The words of a plan that doesn't end before its last one, over the front of `words`, where there is room for them.
fn copy_words(plan: &[u8], words: &mut [u64])
    requires { (again_at (file_count plan.now) ≤ length plan.now) × (file_count plan.now ≤ length words.old) }
    ensures { words.new ≡ front (file_words plan.now) words.old }
{
    let q = count(plan) as u16;
    for i in 0..q {
        words[i as usize] = plan_word(plan, i);
    }
}

// The plan reader of document 01. Answers with m, q and the expected bits as one word, and writes the q words over the front
// of `words`; the rest of it stays. Meets 19, 20, 21, 22 and then 18; a refusal writes nothing.
pub fn read_plan(plan: &[u8], words: &mut [u64]) -> Result<PlanHead, Refusal>
    ensures answer { said result ≡ plan_file_reply plan.now (length words.old) }
    ensures list { words.new ≡ lent (plan_file_reply plan.now (length words.old)) (file_words plan.now) words.old }
{
    let head = check_plan(plan)?;
    let is_short = (words.len() as u64) < head.q;
    if is_short {
        return Err(Refusal::ShortWordList);
    }
    copy_words(plan, words);
    Ok(head)
}
