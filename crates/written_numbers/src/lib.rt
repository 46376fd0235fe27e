// Numbers written into lists of bytes: bytes, counts of 2 bytes and words of 8, low byte first. It sees words and how numbers are read.
// What would stand past the list's end is not written; a function that asks for the room has no test of it.
#![tactic(auto)]

ghost use Rattle.std.specs.Prelude.{◌≡◌, ◌+◌, ◌*◌, ◌<◌, ◌≤◌, length, set, take, drop};
ghost use Rattle.std.proofs.lemmas.List.Edits.{sets};
ghost use Rattle.numbers.specs.Bytes.{bytes_of, word_bytes};

// The byte b at place i of out; nothing past the end.
pub fn write_byte(out: &mut [u8], i: usize, b: u8)
    ensures { out.new ≡ set out.old i b }
{
    if i < out.len() {
        out[i] = b;
    }
}

// The low 2 bytes of x at place i of out, low byte first; nothing past the end.
pub fn write_count(out: &mut [u8], i: usize, x: u64)
    ensures { out.new ≡ sets out.old i (bytes_of 2 x) }
{
    if out.len() <= i {
        return;
    }
    write_byte(out, i, (x % 256) as u8);
    write_byte(out, i + 1, (x / 256 % 256) as u8);
}

// The 8 bytes of x at place i of out, where there is room for them, low byte first, in one store.
pub fn put_word(out: &mut [u8], i: usize, x: u64)
    requires { i + 8 ≤ length out.old }
    ensures { out.new ≡ sets out.old i (bytes_of 8 x) }
{
    out[i..i + 8].copy_from_slice(&x.to_le_bytes());
}

// The 8 bytes of x at place i of out, low byte first; nothing past the end.
pub fn write_word(out: &mut [u8], i: usize, x: u64)
    ensures { out.new ≡ sets out.old i (bytes_of 8 x) }
{
    if i < out.len() && 8 <= out.len() - i {
        put_word(out, i, x);
    } else {
        write_bytes(out, i, &x.to_le_bytes());
    }
}

// The words, 8 bytes each, one after the other from place `at` of out on, where there is room for them, low byte first.
fn put_words(out: &mut [u8], at: usize, words: &[u64])
    requires { at + 8 * length words.now ≤ length out.old }
    ensures { out.new ≡ sets out.old at (word_bytes words.now) }
{
    let mut i = at;
    for w in words {
        put_word(out, i, *w);
        i += 8;
    }
}

// The same as `write_words`, with a test of the room at each word.
fn write_words_to_end(out: &mut [u8], at: usize, words: &[u64])
    ensures { out.new ≡ sets out.old at (word_bytes words.now) }
{
    let mut i = at;
    for w in words {
        if out.len() <= i {
            return;
        }
        write_word(out, i, *w);
        i += 8;
    }
}

// The words, 8 bytes each, one after the other from place `at` of out on, low byte first; nothing past the end.
pub fn write_words(out: &mut [u8], at: usize, words: &[u64])
    ensures { out.new ≡ sets out.old at (word_bytes words.now) }
{
    if at <= out.len() && 8 * words.len() <= out.len() - at {
        put_words(out, at, words);
    } else {
        write_words_to_end(out, at, words);
    }
}

// The bytes from place `at` of out on; nothing past its end.
pub fn write_bytes(out: &mut [u8], at: usize, bytes: &[u8])
    ensures { out.new ≡ sets out.old at bytes.now }
{
    if out.len() <= at {
        return;
    }
    let count = bytes.len().min(out.len() - at);
    // no `copy_from_slice`: of bytes whose number isn't known it makes a call of `memmove`, a name that the archive for C asks for nowhere else
    for i in 0..count {
        out[at + i] = bytes[i];
    }
}

// The 32 bytes from place `from` of the list `bytes` on, at place `at` of out, where they are there and there is room for them: 4 loads,
// then 4 stores.
pub fn put_32(out: &mut [u8], at: usize, bytes: &[u8], from: usize)
    requires { (at + 32 ≤ length out.old) × (from + 32 ≤ length bytes.now) }
    ensures { out.new ≡ sets out.old at (take 32 (drop from bytes.now)) }
{
    // slower: one `copy_from_slice` of the 32 bytes tests first whether the two lists overlap
    let a = numbers::eight_bytes(bytes, from);
    let b = numbers::eight_bytes(bytes, from + 8);
    let c = numbers::eight_bytes(bytes, from + 16);
    let d = numbers::eight_bytes(bytes, from + 24);
    put_word(out, at, a);
    put_word(out, at + 8, b);
    put_word(out, at + 16, c);
    put_word(out, at + 24, d);
}
