// A basis of columns: many columns taken without a parity for each word. Beside a list in which every word has a bit of its own, clear in
// the other words, each other bit is dead, and has a word of the basis. A column is reduced by the basis, and what is left of it makes its
// lowest bit dead. Only at the end are the words made from the basis. It sees words and combinations.
#![tactic(auto)]

ghost use Rattle.std.specs.Prelude.{◌≡◌, List, ℕ, ◌+◌, ◌<◌, length};
ghost use Rattle.word.specs.Parities.{parities};
ghost use Rattle.combinations.specs.Step.{step, steps, units};
ghost use Rattle.turned_words.specs.Turned.{kept, dead_behind};
ghost use Rattle.column_basis.specs.Basis.{Basis, Slots, Held, Settled};

// Every bit is dead.
pub const ALL_DEAD: u64 = u64::MAX;

// The words of the 64 single bits.
pub fn unit_words() -> [u64; 64]
    ensures { result ≡ units 64 }
{
    let mut words = [0; 64];
    for (i, w) in words.iter_mut().enumerate() {
        *w = 1u64 << i;
    }
    words
}

// Puts bit d into the words of the slots that have it, where it is dead: the basis' word of it without the other dead bits says which.
fn settle(basis: &mut [u64], words: &mut [u64], dead: u64, d: usize)
    requires { (length basis.old ≡ 64) × (d < 64) }
    ensures { (l : List ℕ) → Settled l basis.old words.old dead (d + 1) → Settled l basis.new words.new dead d }
{
    if (dead >> d) % 2 == 0 {
        return;
    }
    let bit = 1u64 << d;
    let w = basis[d];
    let others = word::xor_marked(basis, w & (dead ^ bit));
    let row = w ^ others;
    basis[d] = row;
    turned_words::xor_into(words, row, bit);
}

// A basis: a word for each of the 64 bits, and the bits that are dead. Each dead bit's word has it as its lowest bit.
#[derive(Clone, Copy)]
pub struct ColumnBasis {
    pub words: [u64; 64],
    pub dead: u64,
    ghost order: { Basis words dead },
}

impl ColumnBasis {
    // The words of the 64 single bits, with the bits from the width on dead: the basis beside the words of the bits below.
    pub fn single_bits(width: usize) -> ColumnBasis
        ensures words { result.words ≡ units 64 }
        ensures dead { result.dead ≡ dead_behind width }
    {
        ColumnBasis {
            words: unit_words(),
            dead: turned_words::dead_behind(width),
        }
    }

    // What is left of a column without its dead bits.
    fn reduced(&self, column: u64) -> u64
        ensures { (l ws : List ℕ) → Slots l ws self.now.words self.now.dead → (result ≡ parities ws column) × (parities ws result ≡ result) }
    {
        let mut rest = column;
        let mut left = rest & self.dead;
        // no plainer: it goes from one bit to the next
        while left != 0 {
            let d = left.trailing_zeros() as usize;
            rest ^= self.words[d];
            left = rest & self.dead;
        }
        rest
    }

    // One column more: where a word is odd with the column, the bit of the first such word is dead then.
    fn add(&mut self, column: u64)
        ensures { (l : List ℕ) → Held l self.old.words self.old.dead → Held (step column l) self.new.words self.new.dead }
    {
        let rest = self.reduced(column);
        if rest == 0 {
            return;
        }
        let k = rest.trailing_zeros() as usize;
        self.words[k] = rest;
        self.dead ^= 1u64 << k;
    }

    // The columns one after the other, until every bit is dead.
    pub fn take_columns(&mut self, columns: &[u64])
        ensures { (l : List ℕ) → Held l self.old.words self.old.dead → Held (steps columns.now l) self.new.words self.new.dead }
    {
        for column in columns {
            if self.dead == ALL_DEAD {
                return;
            }
            self.add(*column);
        }
    }

    // The words of the slots; in the dead ones stands anything.
    pub fn slot_words(self) -> [u64; 64]
        ensures { (l : List ℕ) → Held l self.words self.dead → kept self.dead result ≡ l }
    {
        let mut basis = self.words;
        let mut words = unit_words();
        for d in (0..64).rev() {
            settle(&mut basis, &mut words, self.dead, d);
        }
        words
    }
}
