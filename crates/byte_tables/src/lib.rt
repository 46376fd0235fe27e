// A table by bytes of the XORs of 64 words: with it the XOR of the words that a word of 64 marks has set costs one look for each of its
// eight bytes. It sees words alone. Every function is total, but for `fill_table`, which asks for
// the room.
#![tactic(auto)]

ghost use Rattle.std.specs.Prelude.{◌≡◌, ◌+◌, ◌≤◌, length};
ghost use Rattle.byte_tables.specs.Table.{Filled, ByteTable, looked};

// The 256 entries from e on, by the words from place i on: word i + t doubles the entries so far.
fn fill_byte(table: &mut [u64], words: &[u64], e: usize, i: usize)
    requires { (e + 256 ≤ length table.old) × (i ≤ 56) }
    ensures { Filled words.now table.old table.new e i 256 }
{
    table[e] = 0;
    for t in 0..8 {
        let w = word::word_at(words, i + t);
        word::double_entries(table, e, 1 << t, w);
    }
}

// Makes the table by bytes of the first 64 words, whatever the list held: for each of the eight bytes of a word of marks and each value of it,
// the XOR of the words that it marks. It takes some 4,000 instructions.
pub fn fill_table(table: &mut [u64], words: &[u64])
    requires { 2048 ≤ length table.old }
    ensures { ByteTable words.now table.new }
{
    for b in 0..8 {
        fill_byte(table, words, 256 * b, 8 * b);
    }
}

// The XOR of the table's entries for the eight bytes of x. By the table of some words that is the XOR of those of them that x marks
// (proofs/TableLaws.antt, looked_marked).
pub fn looked_up(table: &[u64; 2048], x: u64) -> u64
    ensures { result ≡ looked table.now x 8 }
{
    let mut all: u64 = 0;
    for b in 0..8 {
        all ^= table[256 * b + (x >> (8 * b)) as usize % 256];
    }
    all
}
