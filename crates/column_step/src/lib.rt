// One column's step on a list of words: of words that are X-free for some columns, those that are so for one column more. It sees
// words and combinations.
#![tactic(auto)]

ghost use Rattle.std.specs.Prelude.{◌≡◌, ◌<◌, length};
ghost use Rattle.std.specs.Int.Bits.{bit_xor};
ghost use Rattle.word.specs.Word.{parity};
ghost use Rattle.word.specs.Reply.{front};
ghost use Rattle.combinations.specs.Step.{by_parity, step};
ghost use Rattle.column_step.specs.Pivot.{first_odd};

// The place of the first word that is odd with the column; the number of words where none is. No plainer as an Option: `add_column` answers with
// that number.
fn first_odd(words: &[u64], column: u64) -> usize
    ensures { result ≡ first_odd column words.now }
{
    words
        .iter()
        .position(|w| word::shared_parity(*w, column) != 0)
        .unwrap_or(words.len())
}

// The word w, with the pivot XORed in where w is odd with the column.
fn cleared_word(w: u64, column: u64, pivot: u64) -> u64
    ensures { result ≡ by_parity (parity w column) w (bit_xor w pivot) }
{
    if word::shared_parity(w, column) == 0 {
        w
    } else {
        w ^ pivot
    }
}

// Drops the word at place `at`, the first that is odd with the column, and clears the later ones with it.
fn drop_pivot(words: &mut [u64], column: u64, at: usize)
    ensures { at < length words.old → at ≡ first_odd column words.old → words.new ≡ front (step column words.old) words.old }
{
    if words.len() <= at {
        return;
    }
    let pivot = words[at];
    for i in at..words.len() - 1 {
        let w = words[i + 1];
        words[i] = cleared_word(w, column, pivot);
    }
}

// One column more: a list of words that are X-free for some columns becomes the list for those and this one. Answers with the
// number of words left, which stand at the front; the places behind them keep what they held.
pub fn add_column(words: &mut [u64], column: u64) -> usize
    ensures count { result ≡ length (step column words.old) }
    ensures list { words.new ≡ front (step column words.old) words.old }
{
    let at = first_odd(words, column);
    if words.len() <= at {
        return at;
    }
    drop_pivot(words, column, at);
    words.len() - 1
}
