// Why a call declines. Each refusal has its number, by which C and the plan printer know it. There is no 16: it is given to nothing.
#![tactic(auto)]

ghost use Rattle.std.specs.Prelude.{◌≡◌};
ghost use Rattle.refusals.specs.Refusals.{number};

// What an input lacks, in the order of the numbers.
#[derive(Clone, Copy, Debug, PartialEq, Eq)]
pub enum Refusal {
    // The set is too short to have its fixed parts.
    ShortSet = 1,
    // The width isn't 1 to 64.
    Width = 2,
    // The tap word has bit 0 clear, or a bit at or above the width.
    TapWord = 3,
    // The chain count is absent or isn't 1 to 256.
    ChainCount = 4,
    // The set ends before the last spread word.
    SpreadWordsCut = 5,
    // A spread word is zero or has a bit at or above the width.
    SpreadWord = 6,
    // The slice count is absent or above 512.
    SliceCount = 7,
    // A length isn't what the counts give, or the count of ties is bad.
    Length = 8,
    // A row has a spare bit set.
    SpareBit = 9,
    // An unknown cell has its value bit set.
    UnknownValue = 10,
    // The slice number isn't below the slice count.
    SliceNumber = 11,
    // The record's length isn't that of the set's rows.
    RecordLength = 12,
    // The record has a spare bit set.
    RecordSpareBit = 13,
    // There are fewer places than symbols, or than planning takes.
    ShortColumnList = 14,
    // A column has a bit at or above the width.
    Column = 15,
    // No X-free combination but the empty one exists.
    NoCombination = 17,
    // The word list is shorter than the words are many.
    ShortWordList = 18,
    // The plan has fewer than 2 bytes, or its width isn't 1 to 64.
    PlanWidth = 19,
    // The word count is absent, 0 or above the width, or a word is cut off.
    WordCount = 20,
    // The words aren't a reduced list for the width.
    WordList = 21,
    // The plan's second count, its length or a spare bit is wrong.
    PlanEnd = 22,
    // A signature has a bit at or above the width.
    Signature = 23,
    // The output is shorter than the file to be written.
    ShortOutput = 24,
    // The inversion word has a bit at or above the width.
    InversionWord = 25,
    // The share of words isn't 1 to the width.
    Share = 26,
    // A slice alone leaves fewer words than the share.
    SliceShare = 27,
    // The cut list is shorter than the runs are many.
    ShortCutList = 28,
    // A tie's cell is absent or isn't unknown.
    TieCell = 29,
    // The ties don't ascend strictly by slice and chain.
    TieOrder = 30,
    // The last byte of a tie is above 1.
    TieSide = 31,
}

impl Refusal {
    // The refusal's number.
    pub fn number(self) -> u64
        ensures { result ≡ number self }
    {
        self as u64
    }
}
