// Expectations: the expected bits of a list of words for a set, whether or not the words are the set's own. It sees the signature of the
// set's values, the columns of the cells tied as opposite and the test for a reduced list, and nothing of how words are made.
#![tactic(auto)]

ghost use Rattle.std.specs.Prelude.{◌≡◌, not, take};
ghost use Rattle.word.specs.Reply.{first_of};
ghost use Rattle.word.specs.Parities.{parities};
ghost use Rattle.refusals.specs.Refusals.{refused};
ghost use Rattle.combinations.specs.Reduced.{is_reduced};
ghost use Rattle.set_layout.specs.Layout.{circuit_of, slices_of, ties_of};
ghost use Rattle.set_file.specs.Reading.{TakenFrom};
ghost use Rattle.signatures.specs.Symbols.{side_columns};
ghost use Rattle.signatures.specs.Sets.{zero_signature};
ghost use Rattle.expectation.specs.Expecting.{word_tests, expect_reply, said_expected};

use refusals::Refusal;
use set_file::Taken;

// The XOR of the columns of a taken set's cells that are tied as opposite.
fn opposite_cells(taken: Taken, set: &[u8]) -> u64
    ensures { TakenFrom set.now taken → result ≡ side_columns (circuit_of set.now) (slices_of set.now) (ties_of set.now) }
{
    symbol_columns::side_columns(
        taken,
        set_layout::tie_bytes(set),
        set_layout::tie_count(set),
    )
}

// The signature of a taken set for all symbols 0: that of its value rows as they stand, in which an unknown cell's bit is 0, XORed with the
// columns of the cells that are tied as opposite.
fn zero_signature(taken: Taken, set: &[u8]) -> u64
    ensures { TakenFrom set.now taken → result ≡ zero_signature set.now }
{
    signing::sign_values(taken, set) ^ opposite_cells(taken, set)
}

// The expected bits of the words for a taken set, bit i for word i, of the first 64 words: the parities of the words with the signature for
// all symbols 0. It meets no number.
pub fn expected_bits(taken: Taken, set: &[u8], words: &[u64]) -> u64
    ensures { TakenFrom set.now taken → result ≡ parities (take 64 words.now) (zero_signature set.now) }
{
    let zero = zero_signature(taken, set);
    word::word_parities(words, zero)
}

// Number 21: whether the words aren't a reduced list for m.
fn is_unreduced(m: u64, words: &[u64]) -> bool
    ensures { result ≡ not (is_reduced m words.now) }
{
    !reduced_list::is_reduced(m, words)
}

// Refuses a list of words for a register of m bits by the first of 20 and 21 that applies.
fn check_words(m: u64, words: &[u64]) -> Result<(), Refusal>
    ensures { refused result ≡ first_of (word_tests m words.now) }
{
    if reduced_list::is_bad_word_count(m, words.len() as u64) {
        return Err(Refusal::WordCount);
    }
    if is_unreduced(m, words) {
        return Err(Refusal::WordList);
    }
    Ok(())
}

// The expected bits of a set for a list of words, of document 02: each word's parity, whichever set the words were made of. It meets
// the set's numbers, then 20 for how many words there are and 21 for a list that isn't reduced for m.
pub fn expect(set: &[u8], words: &[u64]) -> Result<u64, Refusal>
    ensures { said_expected result ≡ expect_reply set.now words.now }
{
    let taken = set_file::read_set(set)?;
    check_words(taken.register.m, words)?;
    Ok(expected_bits(taken, set, words))
}
