// Clocks undone: words in the register some clocks earlier, where all cells were 0 and nothing was inverted. It sees the register; it knows
// no file. Every function is total.
#![tactic(auto)]

ghost use Rattle.std.specs.Prelude.{◌≡◌, [], map, ℕ, min, ◌-◌, ◌^◌, ◌/◌, ◌%◌, get_or};
ghost use Rattle.std.specs.Int.Bits.{bit_xor};
ghost use Rattle.chains.specs.Driven.{chosen};
ghost use Rattle.register.specs.Circuit.{Circuit, circuit};
ghost use Rattle.unclocking.specs.Unclocked.{before_one, earlier, EightBack};

use register::Register;
use std::array;

// The highest bit of a register of width m, as a word. A width counts as 1 to 64.
fn top_bit(m: u64) -> u64
    ensures { result ≡ 2 ^ (min m 64 - 1) }
{
    1 << register::width_limit(m).saturating_sub(1)
}

// The state that a clock takes to 1.
fn before_one(register: Register) -> u64
    ensures { result ≡ before_one (min register.m 64) register.taps }
{
    (register.taps / 2) ^ top_bit(register.m)
}

// The word one clock earlier, where `one` is what a clock takes to 1.
fn previous_word(one: u64, w: u64) -> u64
    ensures { result ≡ bit_xor (w / 2) (chosen (w % 2) one) }
{
    (w / 2) ^ chains::chosen_word(w % 2, one)
}

// The word so many clocks earlier, where `one` is what a clock takes to 1.
fn earlier_word(one: u64, clocks: u16, w: u64) -> u64
    ensures { (m t : ℕ) → one ≡ before_one m t → result ≡ earlier (circuit m t 0 []) clocks w }
{
    let mut word = w;
    for _ in 0..clocks {
        word = previous_word(one, word);
    }
    word
}

// Puts for each word what it was so many clocks earlier, by clocks with all cells 0 and no inversion. It meets no number: a width counts as at
// most 64. Where the tap word has bit 0, and the words and it no bit at or above the width, as many clocks make the words again what they
// were.
pub fn unclock_words(register: Register, clocks: u16, words: &mut [u64])
    ensures { words.new ≡ map (earlier (circuit (min register.m 64) register.taps 0 []) clocks) words.old }
{
    let one = before_one(register);
    for word in words.iter_mut() {
        *word = earlier_word(one, clocks, *word);
    }
}

// For each byte what it was 8 clocks earlier.
pub fn eight_back(register: Register) -> [u64; 256]
    ensures { EightBack (circuit (min register.m 64) register.taps 0 []) result }
{
    let mut table = array::from_fn(|x| x as u64);
    unclock_words(register, 8, &mut table);
    table
}

// Puts for each word what it was 8 clocks earlier: a clock is linear, so the lowest byte is looked up in the table, and the bytes above it
// only move down.
pub fn unclock_eight(table: &[u64; 256], words: &mut [u64])
    ensures looked { words.new ≡ map (λ w. bit_xor (w / 256) (get_or table.now (w % 256) 0)) words.old }
    ensures eight { (k : Circuit) → EightBack k table.now → words.new ≡ map (earlier k 8) words.old }
{
    for word in words.iter_mut() {
        *word = (*word / 256) ^ table[(*word % 256) as usize];
    }
}
