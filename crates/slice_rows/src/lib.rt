// The rows of one slice of a set file, the value row and the row of unknown marks, and the entries of its ties: their places, and the parts
// of the set themselves. It sees the set's tests and where its parts stand. Every function is total.
#![tactic(auto)]

ghost use Rattle.std.specs.Prelude.{◌≡◌, not, ◌+◌, min, ltb, length};
ghost use Rattle.word.specs.Reply.{first_of};
ghost use Rattle.refusals.specs.Refusals.{refused};
ghost use Rattle.set_layout.specs.Layout.{slices_of};
ghost use Rattle.slice_rows.specs.Rows.{row_tests, value_reply, mark_reply, ties_reply, stretch, stretch_at, said_place};

use refusals::Refusal;

// Where a row or the entries of ties stand in the set: the first byte and how many.
#[derive(Clone, Copy)]
pub struct Place {
    pub start: usize,
    pub bytes: usize,
}

// Number 11: whether the slice number isn't below s.
fn is_past_slices(set: &[u8], slice: u64) -> bool
    ensures { result ≡ not (ltb slice (slices_of set.now)) }
{
    slice >= set_layout::slice_count(set) as u64
}

// Refuses what isn't a slice of the set, by the first number that applies.
fn check_slice(set: &[u8], slice: u64) -> Result<(), Refusal>
    ensures { refused result ≡ first_of (row_tests set.now slice) }
{
    set_file::check_set(set)?;
    if is_past_slices(set, slice) {
        return Err(Refusal::SliceNumber);
    }
    Ok(())
}

// Where the value row of a slice stands in the set. It meets the set's numbers, then 11.
pub fn value_place(set: &[u8], slice: u64) -> Result<Place, Refusal>
    ensures { said_place result ≡ value_reply set.now slice }
{
    check_slice(set, slice)?;
    let n = set_layout::chain_count(set);
    Ok(Place {
        start: set_layout::value_at(n, slice as u16),
        bytes: rows::row_bytes(n as usize),
    })
}

// Where the row of unknown marks of a slice stands in the set, behind its value row. It meets the set's numbers, then 11.
pub fn mark_place(set: &[u8], slice: u64) -> Result<Place, Refusal>
    ensures { said_place result ≡ mark_reply set.now slice }
{
    let values = value_place(set, slice)?;
    Ok(Place {
        start: values.start + values.bytes,
        bytes: values.bytes,
    })
}

// Where the entries of ties stand in the set, without their count: no bytes where it has none. It meets the set's numbers.
pub fn ties_place(set: &[u8]) -> Result<Place, Refusal>
    ensures { said_place result ≡ ties_reply set.now }
{
    set_file::check_set(set)?;
    let n = set_layout::chain_count(set);
    let s = set_layout::slice_count(set);
    let entries = set_layout::tie_count(set) as usize;
    Ok(Place {
        start: set_layout::ties_at(n, s),
        bytes: ties::ENTRY_BYTES * entries,
    })
}

// The part of the set that a place names, as far as it is there; empty in a refusal.
fn stretch_at(set: &[u8], place: Result<Place, Refusal>) -> &[u8]
    ensures bytes { result.now ≡ stretch (said_place place) set.now }
    ensures place { (result.ref_ptr.0 ≡ set.entry.ref_ptr.0) × (result.ref_ptr.1 ≡ set.entry.ref_ptr.1 + min (stretch_at (said_place place)) (length set.now)) }
{
    let Ok(place) = place else {
        return &set[..0];
    };
    let at = place.start.min(set.len());
    let end = numbers::moved(at, place.bytes, set.len());
    &set[at..end]
}

// The value row of a slice, the stretch of the set itself: its bytes, in the memory where they stand; empty where `value_place`
// refuses.
pub fn value_row(set: &[u8], slice: u64) -> &[u8]
    ensures bytes { result.now ≡ stretch (value_reply set.now slice) set.now }
    ensures place { (result.ref_ptr.0 ≡ set.entry.ref_ptr.0) × (result.ref_ptr.1 ≡ set.entry.ref_ptr.1 + stretch_at (value_reply set.now slice)) }
{
    stretch_at(set, value_place(set, slice))
}

// The row of unknown marks of a slice, the stretch of the set itself: its bytes, in the memory where they stand; empty where
// `mark_place` refuses.
pub fn mark_row(set: &[u8], slice: u64) -> &[u8]
    ensures bytes { result.now ≡ stretch (mark_reply set.now slice) set.now }
    ensures place { (result.ref_ptr.0 ≡ set.entry.ref_ptr.0) × (result.ref_ptr.1 ≡ set.entry.ref_ptr.1 + stretch_at (mark_reply set.now slice)) }
{
    stretch_at(set, mark_place(set, slice))
}

// The entries of ties without their count, the stretch of the set itself: its bytes, in the memory where they stand; empty where the set
// has none or `ties_place` refuses.
pub fn ties_stretch(set: &[u8]) -> &[u8]
    ensures bytes { result.now ≡ stretch (ties_reply set.now) set.now }
    ensures place { (result.ref_ptr.0 ≡ set.entry.ref_ptr.0) × (result.ref_ptr.1 ≡ set.entry.ref_ptr.1 + stretch_at (ties_reply set.now)) }
{
    stretch_at(set, ties_place(set))
}
