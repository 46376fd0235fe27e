// Planning: the words of a set, and its words with their expected bits. It sees the words of a taken set and the expected bits of a list
// of words. Planning is the two calls in a row: the words, then the expected bits for them.
#![tactic(auto)]

ghost use Rattle.std.specs.Prelude.{◌≡◌, length, IfOk};
ghost use Rattle.word.specs.Reply.{lent};
ghost use Rattle.set_file.specs.Reading.{TakenFrom};
ghost use Rattle.kept_words.specs.Working.{words_of};
ghost use Rattle.planner.specs.Planning.{working_left, words_reply, said_made, said_worded, plan_reply, said};

use refusals::Refusal;
use set_file::Taken;

// What the call that gives the words answers: m, and how many words there are.
#[derive(Clone, Copy)]
pub struct Words {
    pub m: u64,
    pub q: u64,
}

// What planning answers: m, how many words there are, and the expected bits as one word.
#[derive(Clone, Copy)]
pub struct Planned {
    pub m: u64,
    pub q: u64,
    pub expected: u64,
}

// What both calls make: how many words there are, and the set as it was taken.
#[derive(Clone, Copy)]
struct Made {
    q: u64,
    taken: Taken,
}

// The set read and its words made, for both calls. Meets the set's numbers, then 14, 17 and 18. The set's values change nothing of the
// words and of what is left (proofs/Revised.antt, same_words_reply, same_working_after).
#[tactic(auto, using(crate::proofs::CallLaws::past_set))]
fn make_words(set: &[u8], working: &mut [u64], words: &mut [u64]) -> Result<Made, Refusal>
    ensures taken { IfOk result (λ made. TakenFrom set.now made.taken) }
    ensures answer { said_made result ≡ words_reply set.now (length working.old) (length words.old) }
    ensures working { working.new ≡ working_left set.now working.old }
    ensures words { words.new ≡ lent (words_reply set.now (length working.old) (length words.old)) (words_of set.now) words.old }
{
    let taken = set_file::read_set(set)?;
    let q = kept_words::fill_words(taken, set, working, words)?;
    Ok(Made { q, taken })
}

// The words of a set, the first of the two calls of document 02. Answers with m and q, and writes the q words over the front of
// `words`. Meets the set's numbers, then 14, 17 and 18. A refusal writes nothing, but that past 14 the first places of `working`, 64
// and one for each named symbol, hold 0.
pub fn plan_words(set: &[u8], working: &mut [u64], words: &mut [u64]) -> Result<Words, Refusal>
    ensures answer { said_worded result ≡ words_reply set.now (length working.old) (length words.old) }
    ensures working { working.new ≡ working_left set.now working.old }
    ensures words { words.new ≡ lent (words_reply set.now (length working.old) (length words.old)) (words_of set.now) words.old }
{
    let made = make_words(set, working, words)?;
    let m = made.taken.register.m;
    Ok(Words { m, q: made.q })
}

// Planning of document 01: the words, then the expected bits for them (proofs/InARow.antt, plan_in_a_row); the set is read once for
// both. Answers with m, q and the expected bits, and writes the q words over the front of `words`. Meets the set's numbers, then 14, 17
// and 18. A refusal writes nothing, but that past 14 the first places of `working`, 64 and one for each named symbol, hold 0.
pub fn plan(set: &[u8], working: &mut [u64], words: &mut [u64]) -> Result<Planned, Refusal>
    ensures answer { said result ≡ plan_reply set.now (length working.old) (length words.old) }
    ensures working { working.new ≡ working_left set.now working.old }
    ensures words { words.new ≡ lent (plan_reply set.now (length working.old) (length words.old)) (words_of set.now) words.old }
{
    let made = make_words(set, working, words)?;
    let m = made.taken.register.m;
    let q = made.q;
    let count = q as usize;
    let expected = expectation::expected_bits(made.taken, set, &words[..count]);
    Ok(Planned { m, q, expected })
}
