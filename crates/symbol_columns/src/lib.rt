// The columns of named symbols, and of the cells that take the opposite of theirs, one by one by the powers of the register. It sees ties and
// their flags, the register's powers and a taken set. Every public function is total.
#![tactic(auto)]

ghost use Rattle.std.specs.Prelude.{◌≡◌, true, false, not, [], ℕ, ◌+◌, ◌<◌, ◌≤◌, min, eqb, length, take, get_or};
ghost use Rattle.std.proofs.lemmas.List.Edits.{sets};
ghost use Rattle.word.specs.Some.{any_below};
ghost use Rattle.word.specs.Reply.{front};
ghost use Rattle.rows.specs.Marks.{listed};
ghost use Rattle.ties.specs.Ties.{ties_in};
ghost use Rattle.ties.specs.Symbols.{opens, flag, Within};
ghost use Rattle.chains.specs.Driven.{bad_spread};
ghost use Rattle.register.specs.Circuit.{Circuit, circuit, chains};
ghost use Rattle.set_file.specs.Reading.{taken_circuit};
ghost use Rattle.signatures.specs.Signature.{column};
ghost use Rattle.signatures.specs.Later.{later};
ghost use Rattle.signatures.specs.Symbols.{symbol_column, named_columns, side_columns};
ghost use Rattle.symbol_columns.specs.Powered.{Powered, SymbolsFrom, FlagsIn};

use set_file::Taken;

// What the columns of cells are made from: the powers of a register, the spread words of its chains, its width and the number of slices.
#[derive(Clone, Copy)]
pub struct CellColumns<'a> {
    pub powers: &'a [u64],
    pub spread: &'a [u64],
    pub width: usize,
    pub slices: u16,
}

impl<'a> CellColumns<'a> {
    // Those of a taken set, by the powers of its register.
    pub fn of(taken: &'a Taken, powers: &'a [u64]) -> Self
        ensures cells { length powers.now ≡ 576 → ((i : ℕ) → i < 576 → get_or powers.now i 0 ≡ later (circuit (min taken.now.register.m 64) taken.now.register.taps 0 []) i 1) → bad_spread (min taken.now.register.m 64) (take taken.now.n taken.now.spread) ≡ false → Powered (taken_circuit taken.now) result.slices result.powers.now result.spread.now result.width }
        ensures slices { result.slices ≡ min taken.now.s 512 }
        ensures spread { result.spread.now ≡ take taken.now.n taken.now.spread }
    {
        CellColumns {
            powers,
            spread: &taken.spread[..register::chain_limit(taken.n)],
            width: register::width_limit(taken.register.m) as usize,
            slices: register::slice_limit(taken.s),
        }
    }

    // The column of the cell of slice t and chain c; 0 where there is no slice t, or where the powers are too few.
    fn column(self, t: u16, c: u16) -> u64
        ensures { (k : Circuit) → Powered k self.entry.slices self.entry.powers.now self.entry.spread.now self.entry.width → t < self.entry.slices → c < length self.entry.spread.now → result ≡ column k self.entry.slices t c }
    {
        if self.slices <= t {
            return 0;
        }
        let from = (self.slices - 1 - t) as usize;
        let Some(powers) = self.powers.get(from..from.saturating_add(self.width)) else {
            return 0;
        };
        powers::from_powers(powers, word::word_at(self.spread, c as usize))
    }

    // The column of entry i's cell.
    fn entry(self, ties: &[u8], i: u16) -> u64
        ensures { (k : Circuit) (count : ℕ) → Powered k self.entry.slices self.entry.powers.now self.entry.spread.now self.entry.width → Within self.entry.slices (length self.entry.spread.now) (ties_in ties.now count) → i < count → result ≡ column k self.entry.slices ((ties_in ties.now count).slice i) ((ties_in ties.now count).chain i) }
    {
        self.column(ties::tie_slice(ties, i), ties::tie_chain(ties, i))
    }

    // The XOR of the columns of the first `count` entries that take the opposite.
    fn opposites(self, ties: &[u8], count: u16) -> u64
        ensures { (k : Circuit) → Powered k self.entry.slices self.entry.powers.now self.entry.spread.now self.entry.width → Within self.entry.slices (length self.entry.spread.now) (ties_in ties.now count) → result ≡ side_columns k self.entry.slices (ties_in ties.now count) }
    {
        let mut sum = 0;
        for i in 0..count {
            let is_opposite = ties::tie_side(ties, i) != 0;
            if is_opposite {
                sum ^= self.entry(ties, i);
            }
        }
        sum
    }
}

// Writes the word at this place, where the flag isn't 0 and the list has the place, and answers with the place behind it.
fn put_word(places: &mut [u64], place: usize, flagged: u64, word: u64) -> usize
    ensures value { place ≤ length places.old → result ≡ min (place + length (listed flagged word)) (length places.old) }
    ensures places_after { places.new ≡ sets places.old place (listed flagged word) }
{
    if flagged == 0 {
        return place;
    }
    if places.len() <= place {
        return place;
    }
    places[place] = word;
    place + 1
}

// What the columns of symbols are made from: the cells' columns, which are lent by themselves, the ties, and the symbol numbers of their
// entries.
#[derive(Clone, Copy)]
pub struct SymbolColumns<'a, 'b> {
    pub cells: CellColumns<'b>,
    pub ties: &'a [u8],
    pub numbers: &'a [u16],
}

impl SymbolColumns<'_, '_> {
    // The number of entries whose symbol numbers are there, of 256 at most.
    pub fn count(self) -> u16
        ensures { result ≡ min (length self.entry.numbers.now) 256 }
    {
        self.numbers.len().min(ties::MOST_TIES as usize) as u16
    }

    // The column of the symbol of entry i, which is the first with its number: the XOR of the columns of the entries from it on that have it.
    fn shared_column(self, i: u16, j: u16) -> u64
        ensures { (k : Circuit) (count : ℕ) → SymbolsFrom k self.entry.cells.slices self.entry.cells.powers.now self.entry.cells.spread.now self.entry.cells.width self.entry.numbers.now (ties_in self.entry.ties.now count) → i < count → j ≡ (ties_in self.entry.ties.now count).symbol i → opens (ties_in self.entry.ties.now count) i ≡ true → result ≡ symbol_column k self.entry.cells.slices (ties_in self.entry.ties.now count) ((ties_in self.entry.ties.now count).symbol i) }
    {
        let mut sum = 0;
        for h in i..self.count() {
            let has = self.numbers[h as usize] == j;
            if has {
                sum ^= self.cells.entry(self.ties, h);
            }
        }
        sum
    }

    // The column of the symbol of entry i, which is the first with its number. Where no later entry has the number it is the cell's own; else
    // the columns of all entries with it are added up.
    pub fn column(self, i: u16) -> u64
        ensures { (k : Circuit) (count : ℕ) → SymbolsFrom k self.entry.cells.slices self.entry.cells.powers.now self.entry.cells.spread.now self.entry.cells.width self.entry.numbers.now (ties_in self.entry.ties.now count) → i < count → opens (ties_in self.entry.ties.now count) i ≡ true → result ≡ symbol_column k self.entry.cells.slices (ties_in self.entry.ties.now count) ((ties_in self.entry.ties.now count).symbol i) }
    {
        let at = i as usize;
        if self.numbers.len() <= at {
            return 0;
        }
        let j = self.numbers[at];
        if symbol_flags::has_number(&self.numbers[at + 1..], j) {
            return self.shared_column(i, j);
        }
        self.cells.entry(self.ties, i)
    }

    // The column of the symbol of entry i where its flag isn't 0, and else 0.
    fn flagged_column(self, i: u16, flagged: u64) -> u64
        ensures { (k : Circuit) (count : ℕ) → SymbolsFrom k self.entry.cells.slices self.entry.cells.powers.now self.entry.cells.spread.now self.entry.cells.width self.entry.numbers.now (ties_in self.entry.ties.now count) → i < count → flagged ≡ flag (ties_in self.entry.ties.now count) i → listed flagged result ≡ listed (flag (ties_in self.entry.ties.now count) i) (symbol_column k self.entry.cells.slices (ties_in self.entry.ties.now count) ((ties_in self.entry.ties.now count).symbol i)) }
    {
        if flagged == 0 {
            return 0;
        }
        self.column(i)
    }

    // Writes the columns of the named symbols over the front of the list, from the flags of the entries.
    fn fill(self, flags: &[u64], places: &mut [u64])
        ensures { (k : Circuit) (count : ℕ) → SymbolsFrom k self.entry.cells.slices self.entry.cells.powers.now self.entry.cells.spread.now self.entry.cells.width self.entry.numbers.now (ties_in self.entry.ties.now count) → FlagsIn flags.now (ties_in self.entry.ties.now count) → length (named_columns k self.entry.cells.slices (ties_in self.entry.ties.now count)) ≤ length places.old → places.new ≡ front (named_columns k self.entry.cells.slices (ties_in self.entry.ties.now count)) places.old }
    {
        let mut place = 0;
        for i in 0..self.count() {
            let flagged = word::word_at(flags, i as usize);
            let column = self.flagged_column(i, flagged);
            place = put_word(places, place, flagged, column);
        }
    }
}

// Writes the columns of the named symbols over the front of the list, in the order of their first cells, by the flags of the first `count`
// entries (`symbol_flags::opening_flags`); the rest of the list stays. So it is where the entries' cells lie in the set's slices and chains,
// its spread words are good, and the list has a place for each named symbol; else the words that it writes are no columns.
pub fn fill_symbols(taken: Taken, ties: &[u8], count: u16, flags: &[u64], places: &mut [u64])
    ensures { Within (min taken.s 512) (chains (taken_circuit taken)) (ties_in ties.now count) → bad_spread (min taken.register.m 64) (take taken.n taken.spread) ≡ false → FlagsIn flags.now (ties_in ties.now count) → length (named_columns (taken_circuit taken) (min taken.s 512) (ties_in ties.now count)) ≤ length places.old → places.new ≡ front (named_columns (taken_circuit taken) (min taken.s 512) (ties_in ties.now count)) places.old }
{
    let powers = powers::powers(taken.register, 576);
    let cells = CellColumns::of(&taken, &powers);
    let numbers = symbol_flags::symbol_numbers(ties, count);
    let symbols = SymbolColumns {
        cells,
        ties,
        numbers: &numbers[..symbol_flags::tie_limit(count) as usize],
    };
    symbols.fill(flags, places);
}

// Whether one of the first `count` entries takes the opposite of its symbol.
fn has_opposite(ties: &[u8], count: u16) -> bool
    ensures { result ≡ any_below count (λ i. not (eqb ((ties_in ties.now count).side i) 0)) }
{
    (0..count).any(|i| ties::tie_side(ties, i) != 0)
}

// The XOR of the columns of the cells that take the opposite of their symbol, where the entries' cells lie in the set's slices and chains and
// its spread words are good. Where none does it is 0, and the powers aren't made.
pub fn side_columns(taken: Taken, ties: &[u8], count: u16) -> u64
    ensures { Within (min taken.s 512) (chains (taken_circuit taken)) (ties_in ties.now count) → bad_spread (min taken.register.m 64) (take taken.n taken.spread) ≡ false → result ≡ side_columns (taken_circuit taken) (min taken.s 512) (ties_in ties.now count) }
{
    if !has_opposite(ties, count) {
        return 0;
    }
    let powers = powers::powers(taken.register, 576);
    CellColumns::of(&taken, &powers).opposites(ties, count)
}
