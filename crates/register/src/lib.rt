// The signature register of document 01 and its clock, with the cells of a row or with what they drive. It sees rows and chains; it knows no file.
#![tactic(auto)]

ghost use Rattle.std.specs.Prelude.{◌≡◌, not, min, ◌-◌, eqb, length};
ghost use Rattle.std.specs.Int.Bits.{bit_xor};
ghost use Rattle.word.specs.Reply.{first_of};
ghost use Rattle.rows.specs.Row.{cell, row_bytes};
ghost use Rattle.chains.specs.Driven.{driven};
ghost use Rattle.register.specs.Circuit.{advanced, bad_taps, bad_chains, too_many_slices};
ghost use Rattle.refusals.specs.Refusals.{refused};
ghost use Rattle.register.specs.Clock.{clock_tests, clock_reply, said, held_after, state_after};

use refusals::Refusal;

// The register: its width m, its tap word, its inversion word and its state.
#[derive(Clone, Copy)]
pub struct Register {
    pub m: u64,
    pub taps: u64,
    pub inversion: u64,
    pub state: u64,
}

// Number 3: whether the tap word has bit 0 clear or a bit at or above m.
pub fn is_bad_taps(m: u64, taps: u64) -> bool
    ensures { result ≡ bad_taps m taps }
{
    (taps % 2 == 0) | word::is_beyond(m, taps)
}

// Number 4: whether n isn't 1 to 256.
pub fn is_bad_chains(n: u64) -> bool
    ensures { result ≡ bad_chains n }
{
    !(1..=Register::LARGEST_CHAINS).contains(&n)
}

// Number 7: whether s is above 512.
pub fn is_bad_slices(s: u64) -> bool
    ensures { result ≡ too_many_slices s }
{
    Register::LARGEST_SLICES < s
}

// A width, 64 at most.
pub fn width_limit(m: u64) -> u64
    ensures { result ≡ min m 64 }
{
    m.min(Register::LARGEST_WIDTH)
}

// A number of chains, 256 at most.
pub fn chain_limit(n: u16) -> usize
    ensures { result ≡ min n 256 }
{
    (n as usize).min(Register::LARGEST_CHAINS as usize)
}

// A number of slices, 512 at most.
pub fn slice_limit(s: u16) -> u16
    ensures { result ≡ min s 512 }
{
    s.min(Register::LARGEST_SLICES as u16)
}

// The place of the highest bit of a register of width m: m - 1, and no place outside a word.
fn top_place(m: u64) -> u64
    ensures { result ≡ min m 64 - 1 }
{
    width_limit(m).saturating_sub(1)
}

// Number 8: whether a row isn't of B bytes.
fn is_bad_row_length(n: usize, row: &[u8]) -> bool
    ensures { result ≡ not (eqb (length row.now) (row_bytes n)) }
{
    row.len() != rows::row_bytes(n)
}

// Refuses what the clock doesn't take, by the first number that applies.
fn check_clock(register: Register, spread: &[u64], row: &[u8]) -> Result<(), Refusal>
    ensures { refused result ≡ first_of (clock_tests register spread.now row.now) }
{
    if word::is_bad_width(register.m) {
        return Err(Refusal::Width);
    }
    if is_bad_taps(register.m, register.taps) {
        return Err(Refusal::TapWord);
    }
    if word::is_beyond(register.m, register.inversion) {
        return Err(Refusal::InversionWord);
    }
    if is_bad_chains(spread.len() as u64) {
        return Err(Refusal::ChainCount);
    }
    if chains::is_bad_spread(register.m, spread) {
        return Err(Refusal::SpreadWord);
    }
    if is_bad_row_length(spread.len(), row) {
        return Err(Refusal::Length);
    }
    if rows::has_spare_bit(spread.len(), row) {
        return Err(Refusal::SpareBit);
    }
    if word::is_beyond(register.m, register.state) {
        return Err(Refusal::Signature);
    }
    Ok(())
}

impl Register {
    pub const LARGEST_WIDTH: u64 = word::LARGEST_WIDTH;

    pub const LARGEST_CHAINS: u64 = 256;

    pub const LARGEST_SLICES: u64 = 512;

    // The fresh register: it starts at zero, whatever its inversion word is.
    pub fn fresh(m: u64, taps: u64, inversion: u64) -> Register
        ensures { (result.m ≡ m) × (result.taps ≡ taps) × (result.inversion ≡ inversion) × (result.state ≡ 0) }
    {
        Register {
            m,
            taps,
            inversion,
            state: 0,
        }
    }

    // The same register with this state.
    pub fn holding(self, state: u64) -> Register
        ensures { (result.m ≡ self.m) × (result.taps ≡ self.taps) × (result.inversion ≡ self.inversion) × (result.state ≡ state) }
    {
        Register { state, ..self }
    }

    // The register after one clock in which this word is XORed in: what the chains drive, and the inversion word where that counts.
    // With 0 it is a clock with all cells 0 and without inversion. Its width, tap word and inversion word stay. It meets no number:
    // a width above 64 counts as 64, and at width 0 bit 0 counts as the old top bit.
    pub fn advance(self, drive: u64) -> Register
        ensures { (result.m ≡ self.m) × (result.taps ≡ self.taps) × (result.inversion ≡ self.inversion) × (result.state ≡ bit_xor (advanced (min self.m 64) self.taps self.state) drive) }
    {
        let state = self.state;
        let feedback = chains::chosen_word((state >> top_place(self.m)) % 2, self.taps);
        let shifted = (state << 1) & word::low_mask(self.m);
        self.holding(shifted ^ feedback ^ drive)
    }

    // One clock in which the chains drive this word: the register with its next state. It meets no number: a width above 64 counts as
    // 64.
    pub fn clock_driven(self, drive: u64) -> Register
        ensures { (result.m ≡ self.m) × (result.taps ≡ self.taps) × (result.inversion ≡ self.inversion) × (result.state ≡ bit_xor (bit_xor (advanced (min self.m 64) self.taps self.state) drive) self.inversion) }
    {
        self.advance(drive ^ self.inversion)
    }

    // One clock with the cells of a row, which is lent as it stands in its list: the register with its next state. It meets no number: a width
    // above 64 counts as 64, and a cell past the row's end is 0.
    pub fn clock_row(self, spread: &[u64], row: &[u8]) -> Register
        ensures { (result.m ≡ self.m) × (result.taps ≡ self.taps) × (result.inversion ≡ self.inversion) × (result.state ≡ bit_xor (bit_xor (advanced (min self.m 64) self.taps self.state) (driven spread.now (cell row.now) (length spread.now))) self.inversion) }
    {
        self.clock_driven(chains::driven_word(spread, row))
    }

    // One clock with the cells of one row: the register with its next state. It meets 2, 3, 25, 4, 6, 8 (a row not of B
    // bytes), 9 and 23 (the state), in that order; a refusal leaves the caller the register that it has.
    pub fn clock(self, spread: &[u64], row: &[u8]) -> Result<Register, Refusal>
        ensures result_value { said result ≡ clock_reply self spread.now row.now }
        ensures m_value { ((held_after result self).m ≡ self.m) × ((held_after result self).taps ≡ self.taps) × ((held_after result self).inversion ≡ self.inversion) × ((held_after result self).state ≡ state_after (clock_reply self spread.now row.now) self.state) }
    {
        check_clock(self, spread, row)?;
        Ok(self.clock_row(spread, row))
    }
}
