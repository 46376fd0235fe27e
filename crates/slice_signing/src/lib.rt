// The slices of a response run through the register: the signature of rows that stand in a list of bytes, by the way that takes the least time
// for so many slices. It sees the register, the chains and what they drive; it knows no file. Every public function is total.
#![tactic(auto)]

ghost use Rattle.std.specs.Prelude.{◌≡◌, List, ℕ, min, ◌≤◌, length};
ghost use Rattle.rows.specs.Lists.{cells_of};
ghost use Rattle.rows.specs.declared.Rows.{Rows};
ghost use Rattle.drives.specs.Drives.{Drives};
ghost use Rattle.register.specs.Circuit.{circuit};
ghost use Rattle.signatures.specs.Signature.{signature};

use register::Register;
use rows::Rows;

// Three ways to the same signature: below FEW_SLICES it takes the least time to go from one cell that is 1 to the next, and from MANY_SLICES on
// to list what the chains drive in all slices, 64 chains at a time by a table of bytes, where each row is of whole words of 64 cells. Else it is a table
// of half bytes. With 256 chains, half of whose cells are 1, the tables take some 17,000 instructions of bytes and 4,000 of half bytes; a slice takes 830
// by its cells, 246 by half bytes and 97 by bytes. Clearing the tables' 16 and 8 KiB comes to that.
const FEW_SLICES: u16 = 8;

const MANY_SLICES: u16 = 192;

// The signature of the first s rows that stand in `list`, from a register that holds 0: each row is lent to the chains as it stands there.
// Three loops stay for what may not change: in this one each row is lent to the clock where it stands, and one loop for all would lend it to the
// chains.
fn sign_by_cells(register: Register, spread: &[u64], list: &[u8], rows: Rows, s: u16) -> u64
    requires { register.state ≡ 0 }
    ensures { result ≡ signature (circuit (min register.m 64) register.taps register.inversion spread.now) (cells_of list.now rows) s }
{
    let mut held = register;
    for t in 0..s {
        held = held.clock_row(spread, rows::row_of(list, rows, t));
    }
    held.state
}

// The same for 256 chains at most by the table of half bytes of their spread words.
fn sign_by_half_bytes(register: Register, spread: &[u64], list: &[u8], rows: Rows, s: u16) -> u64
    requires { (register.state ≡ 0) × (length spread.now ≤ 256) }
    ensures { result ≡ signature (circuit (min register.m 64) register.taps register.inversion spread.now) (cells_of list.now rows) s }
{
    let table = chains::half_bytes(spread);
    let mut held = register;
    for t in 0..s {
        held = held.clock_driven(chains::looked_up(&table, rows::row_of(list, rows, t)));
    }
    held.state
}

// The signature of s slices by what the chains drive in each, from a register that holds 0.
fn sign_by_drives(register: Register, drives: &[u64; drives::PLACES], s: u16) -> u64
    requires { (register.state ≡ 0) × (s ≤ 512) }
    ensures { (ws l : List ℕ) (rows : Rows) → Drives ws l rows s drives.now → result ≡ signature (circuit (min register.m 64) register.taps register.inversion ws) (cells_of l rows) s }
{
    let mut held = register;
    for drive in &drives[..s as usize] {
        held = held.clock_driven(*drive);
    }
    held.state
}

// The signature of the first s rows that stand in `list`, from the fresh register of this width, tap word and inversion word on. It meets no number:
// a width above 64 counts as 64, and a cell past the end is 0.
pub fn sign_slices(given: Register, spread: &[u64], list: &[u8], rows: Rows, s: u16) -> u64
    ensures { result ≡ signature (circuit (min given.m 64) given.taps given.inversion spread.now) (cells_of list.now rows) s }
{
    let register = Register::fresh(given.m, given.taps, given.inversion);
    if (s < FEW_SLICES) | (256 < spread.len()) {
        return sign_by_cells(register, spread, list, rows, s);
    }
    let is_few = (s < MANY_SLICES) | (drives::PLACES < s as usize) | (rows.bytes % 8 != 0);
    if is_few {
        return sign_by_half_bytes(register, spread, list, rows, s);
    }
    let driven = drives::slice_drives(spread, list, rows, s);
    sign_by_drives(register, &driven, s)
}
