// The symbol numbers of ties and the flags of the entries that are the first with theirs. It sees numbers and ties; it knows no register and
// no file. Every function is total.
#![tactic(auto)]

ghost use Rattle.std.specs.Prelude.{◌≡◌, cond, ℕ, ◌+◌, ◌*◌, ◌<◌, ◌≤◌, min, eqb, length, get_or};
ghost use Rattle.word.specs.Some.{any_below};
ghost use Rattle.numbers.specs.Bytes.{count_at};
ghost use Rattle.rows.specs.Marks.{total};
ghost use Rattle.ties.specs.Ties.{entry_bytes, ties_in};
ghost use Rattle.ties.specs.Symbols.{flag};

// A number of entries, 256 at most.
pub fn tie_limit(count: u16) -> u16
    ensures { result ≡ min count 256 }
{
    count.min(ties::MOST_TIES)
}

// The symbol numbers of the first `count` entries, of 256 at most, one after the other.
pub fn symbol_numbers(ties: &[u8], count: u16) -> [u16; 256]
    ensures { (i : ℕ) → i < min count 256 → get_or result i 0 ≡ count_at ties.now (entry_bytes * i + 4) }
{
    let mut numbers = [0; 256];
    for i in 0..tie_limit(count) {
        numbers[i as usize] = ties::tie_symbol(ties, i);
    }
    numbers
}

// Whether the number j stands in the list.
pub fn has_number(numbers: &[u16], j: u16) -> bool
    ensures { result ≡ any_below (length numbers.now) (λ h. eqb (get_or numbers.now h 0) j) }
{
    numbers.contains(&j)
}

// For each of the first `count` entries 1 where it is the first with its symbol number, and else 0; zeros behind them.
pub fn opening_flags(ties: &[u8], count: u16) -> [u64; 256]
    ensures flags { count ≤ 256 → (i : ℕ) → i < count → get_or result i 0 ≡ flag (ties_in ties.now count) i }
    ensures rest { count ≤ 256 → (i : ℕ) → count ≤ i → get_or result i 0 ≡ 0 }
{
    let numbers = symbol_numbers(ties, count);
    let mut flags = [0; 256];
    for i in 0..tie_limit(count) as usize {
        let is_named_before = has_number(&numbers[..i], numbers[i]);
        flags[i] = u64::from(!is_named_before);
    }
    flags
}

// The number of flags that aren't 0. Over the flags of all entries of ties it is the number of named symbols (proofs/FlagLaws, flags_counted).
pub fn count_flags(flags: &[u64]) -> u64
    ensures { result ≡ total (length flags.now) (λ i. cond (eqb (get_or flags.now i 0) 0) 0 1) }
{
    flags.iter().map(|flag| u64::from(*flag != 0)).sum()
}
