// What the ways to make columns cost, and which costs least. It sees the register's limits and knows none of the ways. The public functions are
// total.
#![tactic(auto)]

ghost use Rattle.std.specs.Prelude.{◌≡◌, ◌≤◌, ◌<◌};
ghost use Rattle.column_costs.specs.Costs.{cells, sweep_cost, eights_cost, ones_cost, eights_least, ones_less};

// The costs are estimates, from the times and the instructions of the ways, where one word advanced by one clock costs 1. What a column takes in a
// sweep is left out of each.
//
// By a sweep so much costs each slice, beside 1 for each cell.
const SWEPT_SLICE_COST: u64 = 16;

// By eights of clocks so many cells cost 1, and so much costs each slice, each column, and the table of 8 clocks.
const CELLS_FOR_ONE: u64 = 5;

const SLICE_COST: u64 = 20;

const BETWEEN_COST: u64 = 2;

const EIGHT_COST: u64 = 128;

// One by one so much costs each column, beside 1 for each bit of the register, each clock of the powers, and the table of them.
const COLUMN_COST: u64 = 16;

const CLOCK_COST: u64 = 4;

const POWERS_COST: u64 = 256;

// From so many columns on a sweep costs least.
const MANY: usize = 65536;

// The cells of n chains in s slices.
fn all_cells(n: u16, s: u16) -> u64
    ensures { (result ≡ cells n s) × (result ≤ 131072) }
{
    let slices = register::slice_limit(s) as u64;
    let chains = register::chain_limit(n) as u64;
    slices * chains
}

// By a sweep.
fn sweep_cost(n: u16, s: u16) -> u64
    ensures { result ≡ sweep_cost n s }
{
    let slices = register::slice_limit(s) as u64;
    all_cells(n, s) + SWEPT_SLICE_COST * slices
}

// By eights of clocks.
fn eights_cost(count: usize, n: u16, s: u16) -> u64
    requires { count < 65536 }
    ensures { result ≡ eights_cost count n s }
{
    let slices = register::slice_limit(s) as u64;
    all_cells(n, s) / CELLS_FOR_ONE + SLICE_COST * slices + BETWEEN_COST * count as u64 + EIGHT_COST
}

// One by one.
fn ones_cost(m: u64, count: usize, s: u16) -> u64
    requires { count < 65536 }
    ensures { result ≡ ones_cost m count s }
{
    let slices = register::slice_limit(s) as u64;
    let width = register::width_limit(m);
    (width + COLUMN_COST) * count as u64 + CLOCK_COST * slices + POWERS_COST
}

// Whether so many columns, of a register of width m and n chains in s slices, cost less by eights of clocks than by a sweep and than one by one.
pub fn eights_least(m: u64, count: usize, n: u16, s: u16) -> bool
    ensures { result ≡ eights_least m count n s }
{
    count < MANY && eights_cost(count, n, s) < sweep_cost(n, s).min(ones_cost(m, count, s))
}

// Whether they cost less one by one than by a sweep.
pub fn ones_less(m: u64, count: usize, n: u16, s: u16) -> bool
    ensures { result ≡ ones_less m count n s }
{
    count < MANY && ones_cost(m, count, s) < sweep_cost(n, s)
}
