// Numbers in lists of bytes: counts of 2 bytes and words of 8, low byte first. It sees words alone. Every function but `eight_bytes` is total.
#![tactic(auto)]

ghost use Rattle.std.specs.Prelude.{◌≡◌, [], ◌∷◌, min, ◌+◌, ◌<◌, ◌≤◌, length, get_or, take, drop};
ghost use Rattle.numbers.specs.Bytes.{number, count_at, word_at};

// A byte as a word.
pub fn wide(b: u8) -> u64
    ensures { (result ≡ b) × (result < 256) }
{
    u64::from(b)
}

// The byte of s at place i; 0 past the end.
pub fn byte_at(s: &[u8], i: usize) -> u8
    ensures { result ≡ get_or s.now i 0 }
{
    s.get(i).copied().unwrap_or(0)
}

// The place `step` places after `at`, and no further than `end`.
pub fn moved(at: usize, step: usize, end: usize) -> usize
    ensures { result ≡ min (at + step) end }
{
    at.saturating_add(step).min(end)
}

// The `count` bytes at place `at`, as far as they are there.
pub fn part(bytes: &[u8], at: usize, count: usize) -> &[u8]
    ensures { result.now ≡ take count (drop at bytes.now) }
{
    let start = at.min(bytes.len());
    let end = moved(start, count, bytes.len());
    &bytes[start..end]
}

// The count of 2 bytes of s at place i, low byte first; a byte past the end counts as 0.
pub fn read_count(s: &[u8], i: usize) -> u64
    ensures { (result ≡ count_at s.now i) × (result < 65536) }
{
    if s.len() <= i {
        return 0;
    }
    let low = wide(s[i]);
    let high = wide(byte_at(s, i + 1));
    low + 256 * high
}

// The word of 8 bytes of s at place i, low byte first; a byte past the end counts as 0. It goes over the bytes that are there,
// from the last one on, and is for places where fewer than 8 may be left.
pub fn read_short_word(s: &[u8], i: usize) -> u64
    ensures { result ≡ word_at s.now i }
{
    let mut w: u64 = 0;
    for b in part(s, i, 8).iter().rev() {
        w = 256 * w + u64::from(*b);
    }
    w
}

// The word of the 8 bytes of s at place i, low byte first, in one load.
pub fn eight_bytes(s: &[u8], i: usize) -> u64
    requires { i + 8 ≤ length s.now }
    ensures { result ≡ word_at s.now i }
{
    u64::from_le_bytes([
        s[i],
        s[i + 1],
        s[i + 2],
        s[i + 3],
        s[i + 4],
        s[i + 5],
        s[i + 6],
        s[i + 7],
    ])
}

// The word of 8 bytes of s at place i, low byte first; a byte past the end counts as 0.
pub fn read_word(s: &[u8], i: usize) -> u64
    ensures { result ≡ word_at s.now i }
{
    if s.len() <= i {
        return 0;
    }
    if 8 <= s.len() - i {
        return eight_bytes(s, i);
    }
    read_short_word(s, i)
}
