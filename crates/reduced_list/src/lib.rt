// Whether some words are a reduced list, and whether they are as many as a plan can have. It sees words and combinations.
#![tactic(auto)]

ghost use Rattle.std.specs.Prelude.{◌≡◌};
ghost use Rattle.combinations.specs.Pass.{with_top};
ghost use Rattle.combinations.specs.Reduced.{is_reduced};
ghost use Rattle.reduced_list.specs.WordCount.{bad_word_count};
ghost use Rattle.reduced_list.specs.TopPass.{next_above};

// Whether the word w can be the next one of a reduced list, where `seen` holds the earlier words' highest bits: it is above them as a
// number, and has none of them.
pub fn is_next(seen: u64, w: u64) -> bool
    ensures { result ≡ next_above seen w }
{
    (seen < w) & (seen & w == 0)
}

// The bits `seen`, with w's highest bit.
pub fn with_highest(seen: u64, w: u64) -> u64
    ensures { result ≡ with_top seen w }
{
    seen | (1u64 << word::highest_bit(w))
}

// Whether the words are a reduced list for m, by one pass over them (proofs/TopLaws.antt, tops_exactly). The words ascend, so their
// highest bits are asked once, behind the last, whether one is at or above m.
pub fn is_reduced(m: u64, words: &[u64]) -> bool
    ensures { result ≡ is_reduced m words.now }
{
    let mut seen: u64 = 0;
    for &w in words {
        if !is_next(seen, w) {
            return false;
        }
        seen = with_highest(seen, w);
    }
    !word::is_beyond(m, seen)
}

// Whether a plan for m can't have q words: none, or more than m.
pub fn is_bad_word_count(m: u64, q: u64) -> bool
    ensures { result ≡ bad_word_count m q }
{
    (q < 1) | (m < q)
}
