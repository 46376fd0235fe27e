// The plan writer of document 01. It sees words, the test for a reduced list and the plan file's layout.
#![tactic(auto)]

ghost use Rattle.std.specs.Prelude.{◌≡◌, ◌+◌, ◌≤◌, length};
ghost use Rattle.std.proofs.lemmas.List.Edits.{sets};
ghost use Rattle.numbers.specs.Bytes.{bytes_of};
ghost use Rattle.word.specs.Reply.{first_of, front, lent};
ghost use Rattle.refusals.specs.Refusals.{refused};
ghost use Rattle.plan_file.specs.Layout.{plan_length};
ghost use Rattle.plan_writer.specs.Writing.{plan_content, plan_bytes, plan_write_tests, plan_write_reply, said};

use refusals::Refusal;

// The bytes of a plan file of these words.
pub fn plan_length(words: &[u64]) -> usize
    ensures { result ≡ plan_length (length words.now) }
{
    let q = words.len();
    6 + 8 * q + (q + 7) / 8
}

// Refuses what the plan writer doesn't take, with an output of `room` bytes, by the first number that applies.
fn check_content(m: u64, words: &[u64], expected: u64, room: usize) -> Result<(), Refusal>
    ensures { refused result ≡ first_of (plan_write_tests (plan_content m words.now expected) room) }
{
    if word::is_bad_width(m) {
        return Err(Refusal::PlanWidth);
    }
    if reduced_list::is_bad_word_count(m, words.len() as u64) {
        return Err(Refusal::WordCount);
    }
    if !reduced_list::is_reduced(m, words) {
        return Err(Refusal::WordList);
    }
    if word::is_beyond(words.len() as u64, expected) {
        return Err(Refusal::PlanEnd);
    }
    let is_short = room < plan_length(words);
    if is_short {
        return Err(Refusal::ShortOutput);
    }
    Ok(())
}

// The n low bytes of x at place `at` of out.
fn write_low_bytes(out: &mut [u8], at: usize, n: usize, x: u64)
    requires { at + n ≤ length out.old }
    ensures { out.new ≡ sets out.old at (bytes_of n x) }
{
    let mut rest = x;
    for byte in &mut out[at..at + n] {
        *byte = (rest % 256) as u8;
        rest /= 256;
    }
}

// The plan file over the front of out.
fn write_file(m: u64, words: &[u64], expected: u64, out: &mut [u8])
    requires { plan_length (length words.now) ≤ length out.old }
    ensures { out.new ≡ front (plan_bytes (plan_content m words.now expected)) out.old }
{
    let q = words.len();
    written_numbers::write_count(out, 0, m);
    written_numbers::write_count(out, 2, q as u64);
    written_numbers::write_words(out, 4, words);
    written_numbers::write_count(out, 4 + 8 * q, q as u64);
    write_low_bytes(out, 6 + 8 * q, (q + 7) / 8, expected);
}

// The plan writer of document 01. Answers with the length of the file and writes it over the front of `out`; the rest of it
// stays. Meets 19 (m), 20 (how many words there are), 21, 22 (an expected bit at or above q) and 24, in that order; a refusal
// writes nothing.
pub fn write_plan(m: u64, words: &[u64], expected: u64, out: &mut [u8]) -> Result<usize, Refusal>
    ensures answer { said result ≡ plan_write_reply (plan_content m words.now expected) (length out.old) }
    ensures output { out.new ≡ lent (plan_write_reply (plan_content m words.now expected) (length out.old)) (plan_bytes (plan_content m words.now expected)) out.old }
{
    check_content(m, words, expected, out.len())?;
    write_file(m, words, expected, out);
    Ok(plan_length(words))
}
