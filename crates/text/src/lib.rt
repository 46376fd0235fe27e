// Text in a lent buffer: bytes and decimal numbers, one after the other. It sees numbers in lists of bytes. Every function is total:
// nothing is written past the buffer's end, and no place that is answered lies past it.
#![tactic(auto)]

ghost use Rattle.std.specs.Prelude.{◌≡◌, ◌≤◌, length, drop};
ghost use Rattle.text.specs.Text.{decimal, Put};

// The bytes of `text` into `out` from place `at`; answers with the place behind them, or with the buffer's end where they reach past it.
pub fn put(out: &mut [u8], at: usize, text: &[u8]) -> usize
    ensures { Put out.old at text.now result out.new }
{
    written_numbers::write_bytes(out, at, text);
    numbers::moved(at, text.len(), out.len())
}

// A number's digits at the end of 20 bytes: they start at place `from`. Fixed memory: there is no heap.
#[derive(Drop)]
struct Digits {
    bytes: [u8; 20],
    from: usize,
}

fn digits_of(n: u64) -> Digits
    ensures { (length result.bytes ≡ 20) × (result.from ≤ 20) × (drop result.from result.bytes ≡ decimal n) }
{
    let mut bytes = [0; 20];
    let mut left = n;
    let mut i: usize = 20;
    // no plainer: the loop ends at the number's last digit, and its count is the answer
    while 9 < left {
        i -= 1;
        bytes[i] = b'0' + (left % 10) as u8;
        left /= 10;
    }
    i -= 1;
    bytes[i] = b'0' + left as u8;
    Digits { bytes, from: i }
}

// The decimal digits of n into `out` from place `at`; answers with the place behind them as `put` does. No plainer as a `Display`: `fmt` says nothing
// of the bytes that it writes, and they are what is promised.
pub fn put_decimal(out: &mut [u8], at: usize, n: u64) -> usize
    ensures { Put out.old at (decimal n) result out.new }
{
    let digits = digits_of(n);
    put(out, at, &digits.bytes[digits.from..])
}
