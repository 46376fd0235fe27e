// Up to 8 clocks at once: words in the register 1 to 8 clocks later, where all cells are 0 and nothing is inverted, by a table of what
// the bits that leave the register give back. It sees the register and its powers; it knows no file. Every function is total.
#![tactic(auto)]

ghost use Rattle.std.specs.Prelude.{◌≡◌, [], map, min, ◌≤◌, ◌%◌, length};
ghost use Rattle.register.specs.Circuit.{Circuit, circuit};
ghost use Rattle.signatures.specs.Later.{later};
ghost use Rattle.eight_clocks.specs.Eight.{EightOn, looked_on};

use register::Register;

// For each byte what it is 8 clocks later, where it stands at the top of the register. Bit i of the byte leaves the register with the clock
// 8 - i, and the tap word that it gives back is clocked i times; each bit doubles the entries.
pub fn eight_on(register: Register) -> [u64; 256]
    ensures { 8 ≤ min register.m 64 → EightOn (circuit (min register.m 64) register.taps 0 []) result }
{
    let mut table = [0; 256];
    let mut bit = register.taps;
    for i in 0..8usize {
        word::double_entries(&mut table[..], 0, 1 << i, bit);
        bit = powers::next_state(register, bit);
    }
    table
}

// Looks each word up for 8 clocks in a table of a register of width m, which counts as at most 64. With fewer than 256 entries it does nothing.
pub fn look_eight(m: u64, table: &[u64], words: &mut [u64])
    ensures { 256 ≤ length table.now → words.new ≡ map (looked_on (min m 64) table.now 8) words.old }
{
    if table.len() < 256 {
        return;
    }
    let mask = word::low_mask(m);
    // How far the bits that leave the register stand above bit 0.
    let down = register::width_limit(m).saturating_sub(8);
    for word in words.iter_mut() {
        let w = *word;
        *word = ((w << 8) & mask) ^ table[((w >> down) % 256) as usize];
    }
}

// Looks each word up for so many clocks, without whole eights of them: 0 to 7, in the same table. No plainer as one function with the other: its 8
// and its 256 would be values, and a table of fewer clocks be looked up with a mask.
pub fn look_few(m: u64, clocks: usize, table: &[u64], words: &mut [u64])
    ensures { 256 ≤ length table.now → words.new ≡ map (looked_on (min m 64) table.now (clocks % 8)) words.old }
{
    let few = (clocks % 8) as u64;
    if few == 0 {
        return;
    }
    if table.len() < 256 {
        return;
    }
    let mask = word::low_mask(m);
    let out = word::low_mask(few);
    // How far the bits that leave the register stand above bit 0.
    let down = register::width_limit(m).saturating_sub(few);
    for word in words.iter_mut() {
        let w = *word;
        *word = ((w << few) & mask) ^ table[((w >> down) & out) as usize];
    }
}

// Puts for each word what it is 8 clocks later, by the table (`eight_on`) of a register of width m, which counts as at most 64. The register has at
// least 8 bits; the words may have bits above it.
pub fn advance_eight(m: u64, table: &[u64; 256], words: &mut [u64])
    ensures looked { words.new ≡ map (looked_on (min m 64) table.now 8) words.old }
    ensures eight { (k : Circuit) → k.width ≡ min m 64 → 8 ≤ k.width → EightOn k table.now → words.new ≡ map (later k 8) words.old }
{
    look_eight(m, &table[..], words);
}

// Puts for each word what it is so many clocks later, without whole eights of them: 0 to 7, by the same table.
pub fn advance_few(m: u64, clocks: u16, table: &[u64; 256], words: &mut [u64])
    ensures looked { words.new ≡ map (looked_on (min m 64) table.now (clocks % 8)) words.old }
    ensures few { (k : Circuit) → k.width ≡ min m 64 → 8 ≤ k.width → EightOn k table.now → words.new ≡ map (later k (clocks % 8)) words.old }
{
    look_few(m, clocks as usize, &table[..], words);
}
