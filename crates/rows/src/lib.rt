// Rows of cells: a slice's cells, eight to a byte, and lists of rows. It sees words and numbers; it knows no register and no file.
// Every public function is total but `pairs_share_a_bit`, whose caller has the rows' bound.
#![tactic(auto)]

ghost use Rattle.std.specs.Prelude.{◌≡◌, ◌+◌, ◌*◌, ◌≤◌, length, take, drop};
ghost use Rattle.std.specs.Int.Bits.{bit_and, bit_or};
ghost use Rattle.word.specs.Some.{any_below};
ghost use Rattle.numbers.specs.Bytes.{word_at};
ghost use Rattle.rows.specs.Row.{row_bytes, cell, spare_set};
ghost use Rattle.rows.specs.Lists.{list_row, row_of, shares_bit, spare_in};

// Where a response's rows stand in a list of bytes: `bytes` bytes each, the first at place `at` and each `stride` bytes after the
// one before. The list goes beside it as a parameter. No plainer as a field: a clause would say `cells_of rows.entry.list.now rows.entry.rows`
// in place of `cells_of list.now rows`.
#[derive(Clone, Copy)]
pub struct Rows {
    pub at: u32,
    pub stride: u32,
    pub bytes: u32,
}

impl Rows {
    // Where the rows of n chains stand in a list of nothing else.
    pub fn packed(n: u16) -> Rows
        ensures { (result.at ≡ 0) × (result.stride ≡ row_bytes n) × (result.bytes ≡ row_bytes n) }
    {
        let bytes = row_bytes(n as usize) as u32;
        Rows {
            at: 0,
            stride: bytes,
            bytes,
        }
    }
}

// B, the bytes of a row of n chains: n ÷ 8 rounded up, for every n.
pub fn row_bytes(n: usize) -> usize
    ensures { result ≡ row_bytes n }
{
    n.div_ceil(8)
}

// The cell of chain c in a row: 0 or 1, and 0 past the row's end. It meets no number.
pub fn cell_at(row: &[u8], c: usize) -> u64
    ensures { result ≡ cell row.now c }
{
    (u64::from(numbers::byte_at(row, c / 8)) >> (c % 8)) % 2
}

// Number 9: whether a row of n chains has a spare bit set. The spare bits are the high ones of one byte.
pub fn has_spare_bit(n: usize, row: &[u8]) -> bool
    ensures { result ≡ spare_set n row.now }
{
    (n % 8 != 0) & (numbers::byte_at(row, n / 8) >> (n % 8) != 0)
}

// Row t of the rows that stand in a list of bytes, as far as it is there: a part of the list itself.
pub fn row_of(list: &[u8], rows: Rows, t: u16) -> &[u8]
    ensures { result.now ≡ row_of list.now rows t }
{
    let at = rows.at as usize;
    let stride = rows.stride as usize;
    numbers::part(list, at + stride * usize::from(t), rows.bytes as usize)
}

// Whether one of the first `count` rows of a list of rows of n chains has a spare bit set; a row past the end of the list is
// all 0. Rows of whole bytes have none.
pub fn has_spare_row(n: usize, rows: &[u8], count: usize) -> bool
    ensures { result ≡ spare_in n (list_row n rows.now) count }
{
    if n % 8 == 0 {
        return false;
    }
    rows.chunks_exact(row_bytes(n))
        .take(count)
        .any(|row| has_spare_bit(n, row))
}

// Whether a byte of `values` and the byte of `marks` at the same place have a bit in common. It looks at all of them: without a way out
// the loop is done by many bytes at once.
pub fn share_a_bit(values: &[u8], marks: &[u8]) -> bool
    ensures { result ≡ shares_bit values.now marks.now }
{
    let common = values.len().min(marks.len());
    let mut shared = 0;
    // slower: `zip` with `fold` takes a tenth more where rows are short
    for i in 0..common {
        shared |= values[i] & marks[i];
    }
    shared != 0
}

// Of two rows of 32 bytes, the one from place `at` on and the other behind it: what the first words share, and the third ones. At 8 bytes
// more it is the second and the fourth ones.
fn shared_words(list: &[u8], at: usize) -> u64
    requires { at + 56 ≤ length list.now }
    ensures { result ≡ bit_or (bit_and (word_at list.now at) (word_at list.now (at + 32))) (bit_and (word_at list.now (at + 16)) (word_at list.now (at + 48))) }
{
    (numbers::eight_bytes(list, at) & numbers::eight_bytes(list, at + 32))
        | (numbers::eight_bytes(list, at + 16) & numbers::eight_bytes(list, at + 48))
}

// Whether one of `count` pairs of rows of 32 bytes, one after the other from place `from` on, has a bit in common. What they share is
// gathered in two words, which a register of 16 bytes holds, and asked about once, at the end.
pub fn pairs_share_a_bit(list: &[u8], from: usize, count: u16) -> bool
    requires { from + 64 * count ≤ length list.now }
    ensures { result ≡ any_below count (λ t. shares_bit (take 32 (drop (from + 64 * t) list.now)) (take 32 (drop (from + 64 * t + 32) list.now))) }
{
    let mut even = 0;
    let mut odd = 0;
    for t in 0..usize::from(count) {
        let at = from + 64 * t;
        even |= shared_words(list, at);
        odd |= shared_words(list, at + 8);
    }
    (even | odd) != 0
}
