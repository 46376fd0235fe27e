// The lines of the plan printer's text, each put into a lent buffer: the set's, a word's, all words', the last and a refusal's. It sees
// text and numbers in lists of bytes, and nothing of sets or planning. Every function is total, and answers with the place behind what
// it put, or with the buffer's end where that lies past it.
#![tactic(auto)]

ghost use Rattle.std.specs.Prelude.{◌++◌};
ghost use Rattle.text.specs.Text.{decimal, Put};
ghost use Rattle.plan_lines.specs.Lines.{set_line, word_line, word_lines, end_line, refused_line};

// The digits of n and then `end`, from place `at`.
fn put_number(out: &mut [u8], at: usize, n: u64, end: &[u8]) -> usize
    ensures { Put out.old at (decimal n ++ end.now) result out.new }
{
    let behind = text::put_decimal(out, at, n);
    text::put(out, behind, end)
}

// The first line, from place `at`: m, n, s and the number of unknown cells.
pub fn put_set_line(out: &mut [u8], at: usize, m: u64, n: u64, s: u64, unknowns: u64) -> usize
    ensures { Put out.old at (set_line m n s unknowns) result out.new }
{
    let m_at = text::put(out, at, b"set ");
    let n_at = put_number(out, m_at, m, b" ");
    let s_at = put_number(out, n_at, n, b" ");
    let unknowns_at = put_number(out, s_at, s, b" ");
    put_number(out, unknowns_at, unknowns, b"\n")
}

// The line of word i, w, with its expected bit.
fn put_word_line(out: &mut [u8], at: usize, i: u64, w: u64, bit: u64) -> usize
    ensures { Put out.old at (word_line i w bit) result out.new }
{
    let i_at = text::put(out, at, b"word ");
    let w_at = put_number(out, i_at, i, b" ");
    let bit_at = put_number(out, w_at, w, b" ");
    put_number(out, bit_at, bit, b"\n")
}

// The lines of all words, with their expected bits as one word.
pub fn put_word_lines(out: &mut [u8], at: usize, words: &[u64], expected: u64) -> usize
    ensures { Put out.old at (word_lines 0 words.now expected) result out.new }
{
    let mut place = at.min(out.len());
    let mut bits = expected;
    for (i, w) in words.iter().enumerate() {
        place = put_word_line(out, place, i as u64, *w, bits % 2);
        bits /= 2;
    }
    place
}

// The last line: q.
pub fn put_end_line(out: &mut [u8], at: usize, q: u64) -> usize
    ensures { Put out.old at (end_line q) result out.new }
{
    let q_at = text::put(out, at, b"end ");
    put_number(out, q_at, q, b"\n")
}

// A refusal's line, the whole of its text.
pub fn put_refused_line(out: &mut [u8], at: usize, number: u64) -> usize
    ensures { Put out.old at (refused_line number) result out.new }
{
    let number_at = text::put(out, at, b"refused ");
    put_number(out, number_at, number, b"\n")
}
