// The powers of the register: words in the register while all cells are 0 and nothing is inverted, one clock after the other or many
// at once. Such a clock is linear, so a word some clocks later is the XOR of the powers for its bits. It sees the register; it knows no file.
// Every function is total.
#![tactic(auto)]

ghost use Rattle.std.specs.Prelude.{◌≡◌, [], map, ℕ, min, ◌<◌, get_or};
ghost use Rattle.register.specs.Circuit.{circuit, advanced};
ghost use Rattle.signatures.specs.Later.{later};
ghost use Rattle.powers.specs.Powers.{from_powers};

use register::Register;

// The state after this one, by a clock with all cells 0 and no inversion.
pub fn next_state(register: Register, state: u64) -> u64
    ensures { result ≡ advanced (min register.m 64) register.taps state }
{
    register.holding(state).advance(0).state
}

// Advances each word by one clock with all cells 0 and no inversion.
pub fn advance_words(register: Register, words: &mut [u64])
    ensures { words.new ≡ map (advanced (min register.m 64) register.taps) words.old }
{
    for word in words.iter_mut() {
        *word = next_state(register, *word);
    }
}

// The powers of the register: the word 1 after 0 clocks, 1 and so on, `count` of them, and no more than 576, which is enough for 512 slices and a
// width of 64.
pub fn powers(register: Register, count: usize) -> [u64; 576]
    ensures { (i : ℕ) → i < 576 → i < count → get_or result i 0 ≡ later (circuit (min register.m 64) register.taps 0 []) i 1 }
{
    let mut table = [0; 576];
    let mut power = 1;
    for entry in &mut table[..count.min(576)] {
        *entry = power;
        power = next_state(register, power);
    }
    table
}

// The XOR of the powers whose bit in w is 1.
pub fn from_powers(powers: &[u64], w: u64) -> u64
    ensures { result ≡ from_powers powers.now w }
{
    word::xor_marked(powers, w)
}

// Puts for each word the XOR of the powers whose bit in it is 1.
pub fn power_words(powers: &[u64], words: &mut [u64])
    ensures { words.new ≡ map (from_powers powers.now) words.old }
{
    for word in words.iter_mut() {
        *word = from_powers(powers, *word);
    }
}
