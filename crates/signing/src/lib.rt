// Signing: the signature of a response whose rows stand in a list of bytes, of a record, and of a set's values. It sees the
// register, the signature of slices, and the set file. Every function is total.
#![tactic(auto)]

ghost use Rattle.std.specs.Prelude.{◌≡◌};
ghost use Rattle.rows.specs.Lists.{cells_of};
ghost use Rattle.set_file.specs.Reading.{taken_circuit};
ghost use Rattle.signatures.specs.Signature.{signature};
ghost use Rattle.signing.specs.Signing.{value_cells, sign_reply, said_signed};

use refusals::Refusal;
use rows::Rows;
use set_file::Taken;

// The signature of the response of a taken set's shape whose rows stand in `list`, from the fresh register on. It meets no number: a width
// above 64 counts as 64, the chains after 256 drive nothing, and a row past the end is all 0.
pub fn sign_rows(taken: Taken, list: &[u8], rows: Rows) -> u64
    ensures { result ≡ signature (taken_circuit taken) (cells_of list.now rows) taken.s }
{
    let chains = register::chain_limit(taken.n);
    let spread = taken.spread;
    slice_signing::sign_slices(taken.register, &spread[..chains], list, rows, taken.s)
}

// The signature of a taken set's value rows as they stand: an unknown cell's value bit is 0. It meets no number.
pub fn sign_values(taken: Taken, set: &[u8]) -> u64
    ensures { result ≡ signature (taken_circuit taken) (value_cells taken.n set.now) taken.s }
{
    sign_rows(taken, set, set_layout::value_rows(taken.n))
}

// The signature of a record: all its cells as recorded, those of unknown cells too. It meets the set's numbers, then 12 and 13.
pub fn sign_record(set: &[u8], record: &[u8]) -> Result<u64, Refusal>
    ensures { said_signed result ≡ sign_reply set.now «record».now }
{
    let taken = set_file::read_set(set)?;
    let n = taken.n;
    let s = taken.s;
    let is_misfit = record.len() != set_layout::rows_length(n, s);
    if is_misfit {
        return Err(Refusal::RecordLength);
    }
    if rows::has_spare_row(n as usize, record, s as usize) {
        return Err(Refusal::RecordSpareBit);
    }
    Ok(sign_rows(taken, record, Rows::packed(n)))
}
