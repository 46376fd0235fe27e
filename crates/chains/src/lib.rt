// Chains: their spread words and what they drive into the register's inputs, cell by cell or by a table of half bytes. It sees
// words, numbers and rows; it knows no register. Every function is total.
#![tactic(auto)]

ghost use Rattle.std.specs.Prelude.{◌≡◌, min, ◌+◌, ◌≤◌, ◌<◌, length, get_or};
ghost use Rattle.std.specs.Int.Bits.{bit_xor};
ghost use Rattle.rows.specs.Row.{cell};
ghost use Rattle.chains.specs.Driven.{chosen, driven, bad_spread};
ghost use Rattle.chains.specs.Table.{HalfBytes, table_end, looked_byte, looked_up};

// Number 6: whether one of the spread words is zero or has a bit at or above m. The words are looked at together: one has a bit there
// exactly when the OR of all has.
pub fn is_bad_spread(m: u64, spread: &[u64]) -> bool
    ensures { result ≡ bad_spread m spread.now }
{
    let mut seen = 0;
    let mut has_zero = false;
    for w in spread {
        seen |= *w;
        has_zero |= *w == 0;
    }
    has_zero | word::is_beyond(m, seen)
}

// The word w where the digit is 1, and 0 where it is 0.
pub fn chosen_word(digit: u64, w: u64) -> u64
    ensures { result ≡ chosen digit w }
{
    if digit == 0 { 0 } else { w }
}

// The XOR of the spread words of the chains whose cell in the row is 1, by words of 64 cells. It meets no number: a cell past the
// row's end is 0.
pub fn driven_word(spread: &[u64], row: &[u8]) -> u64
    ensures { result ≡ driven spread.now (cell row.now) (length spread.now) }
{
    let mut drive = 0;
    for (i, words) in spread.chunks(64).enumerate() {
        drive ^= word::xor_marked(words, numbers::read_word(row, 8 * i));
    }
    drive
}

// The table of half bytes: for each four chains of the first 256, the XORs of some of their spread words, by which of their
// cells are 1. With it a slice costs one look for each half byte of its row.
pub fn half_bytes(spread: &[u64]) -> [u64; 1024]
    ensures { HalfBytes spread.now result }
{
    let mut table = [0; 1024];
    for g in 0..spread.len().min(256).div_ceil(4) {
        let c = 4 * g;
        let e = 16 * g;
        word::double_entries(&mut table[..], e, 1, word::word_at(spread, c));
        word::double_entries(&mut table[..], e, 2, word::word_at(spread, c + 1));
        word::double_entries(&mut table[..], e, 4, word::word_at(spread, c + 2));
        word::double_entries(&mut table[..], e, 8, word::word_at(spread, c + 3));
    }
    table
}

// The XOR of the table's entries for the two half bytes of byte i of a row.
fn looked_byte(table: &[u64; 1024], row: &[u8], i: usize) -> u64
    requires { (i < length row.now) × (i < 32) }
    ensures { result ≡ looked_byte table.now row.now i }
{
    let v = usize::from(row[i]);
    table[32 * i + v % 16] ^ table[32 * i + 16 + v / 16]
}

// The XOR of the table's entries for the half bytes of the eight bytes of a row from byte i on.
fn looked_eight(table: &[u64; 1024], row: &[u8], i: usize) -> u64
    requires { (i + 8 ≤ length row.now) × (i + 8 ≤ 32) }
    ensures { bit_xor (looked_up table.now row.now i) result ≡ looked_up table.now row.now (i + 8) }
{
    looked_byte(table, row, i)
        ^ looked_byte(table, row, i + 1)
        ^ looked_byte(table, row, i + 2)
        ^ looked_byte(table, row, i + 3)
        ^ looked_byte(table, row, i + 4)
        ^ looked_byte(table, row, i + 5)
        ^ looked_byte(table, row, i + 6)
        ^ looked_byte(table, row, i + 7)
}

// The XOR of the table's entries for the half bytes of the bytes of a row from byte `from` on and before byte `count`.
fn looked_rest(table: &[u64; 1024], row: &[u8], from: usize, count: usize) -> u64
    requires { (from ≤ count) × (count ≤ length row.now) × (count ≤ 32) }
    ensures { bit_xor (looked_up table.now row.now from) result ≡ looked_up table.now row.now count }
{
    let mut drive = 0;
    for i in from..count {
        drive ^= looked_byte(table, row, i);
    }
    drive
}

// The XOR of the table's entries for the half bytes of a row of 32 bytes at most.
pub fn looked_up(table: &[u64; 1024], row: &[u8]) -> u64
    ensures { result ≡ looked_up table.now row.now (min (length row.now) 32) }
{
    let count = row.len().min(32);
    let eights = count / 8;
    let mut drive = 0;
    for i in 0..eights {
        drive ^= looked_eight(table, row, 8 * i);
    }
    drive ^ looked_rest(table, row, 8 * eights, count)
}
