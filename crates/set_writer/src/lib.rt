// The set file of document 01: its writer. What it writes the reader (`set_file`) and the rows of one slice (`slice_rows`) give
// back: proofs/RoundTrip. The numbers that it meets are those of its content (`set_content`).
#![tactic(auto)]

ghost use Rattle.std.specs.Prelude.{◌≡◌, ◌++◌, ◌+◌, ◌*◌, ◌<◌, ◌≤◌, length};
ghost use Rattle.std.proofs.lemmas.List.Edits.{sets};
ghost use Rattle.word.specs.Reply.{lent};
ghost use Rattle.numbers.specs.Bytes.{bytes_of};
ghost use Rattle.numbers.specs.Joined.{joined};
ghost use Rattle.rows.specs.Row.{row_bytes};
ghost use Rattle.set_layout.specs.Layout.{rows_at, tie_count_at};
ghost use Rattle.set_content.specs.Content.{set_content};
ghost use Rattle.set_writer.specs.Writing.{head_bytes, slice_bytes, set_bytes, set_write_reply, said_set_written};

use refusals::Refusal;

// What a set file has before its rows; nothing past the end of out.
fn write_head(out: &mut [u8], m: u64, taps: u64, inversion: u64, spread: &[u64], s: u64)
    requires { length spread.now < 65536 }
    ensures { out.new ≡ sets out.old 0 (head_bytes m taps inversion spread.now s) }
{
    let n = spread.len();
    written_numbers::write_count(out, 0, m);
    written_numbers::write_word(out, set_layout::TAPS_AT, taps);
    written_numbers::write_word(out, set_layout::INVERSION_AT, inversion);
    written_numbers::write_count(out, set_layout::CHAINS_AT, n as u64);
    written_numbers::write_words(out, set_layout::SPREAD_AT, spread);
    written_numbers::write_count(out, set_layout::slices_at(n as u16), s);
}

// The first s value rows and mark rows of n chains, in turn, where a set of n chains has its rows; rows of any length, and nothing past
// the end of out.
fn write_any_slices(out: &mut [u8], n: u16, s: u16, values: &[u8], marks: &[u8])
    requires { (row_bytes n * s ≤ length values.now) × (row_bytes n * s ≤ length marks.now) }
    ensures { out.new ≡ sets out.old (rows_at n) (joined (slice_bytes n values.now marks.now) s) }
{
    let bytes = rows::row_bytes(n as usize);
    let start = set_layout::rows_at(n);
    for t in 0..s {
        let from = bytes * t as usize;
        let end = from + bytes;
        let to = start + 2 * from;
        written_numbers::write_bytes(out, to, &values[from..end]);
        written_numbers::write_bytes(out, to + bytes, &marks[from..end]);
    }
}

// The same for rows of 32 bytes, where both lists have them and there is room for all of them: no test in the loop.
fn write_wide_slices(out: &mut [u8], n: u16, s: u16, values: &[u8], marks: &[u8])
    requires { (row_bytes n ≡ 32) × (32 * s ≤ length values.now) × (32 * s ≤ length marks.now) × (rows_at n + 64 * s ≤ length out.old) }
    ensures { out.new ≡ sets out.old (rows_at n) (joined (slice_bytes n values.now marks.now) s) }
{
    let start = set_layout::rows_at(n);
    for t in 0..s {
        let from = 32 * t as usize;
        let to = start + 2 * from;
        written_numbers::put_32(out, to, values, from);
        written_numbers::put_32(out, to + 32, marks, from);
    }
}

// The first s value rows and mark rows of n chains, in turn, where a set of n chains has its rows.
fn write_slices(out: &mut [u8], n: u16, s: u16, values: &[u8], marks: &[u8])
    ensures { length values.now ≡ row_bytes n * s → length marks.now ≡ row_bytes n * s → out.new ≡ sets out.old (rows_at n) (joined (slice_bytes n values.now marks.now) s) }
{
    let all = set_layout::rows_length(n, s);
    if (values.len() < all) | (marks.len() < all) {
        return;
    }
    if rows::row_bytes(n as usize) == 32 && out.len() >= set_layout::tie_count_at(n, s) {
        write_wide_slices(out, n, s, values, marks);
        return;
    }
    write_any_slices(out, n, s, values, marks);
}

// The count of ties and their entries, where a set of n chains and s slices has them; nothing past the end of out.
fn write_ties(out: &mut [u8], n: u16, s: u16, count: u16, ties: &[u8])
    ensures { out.new ≡ sets out.old (tie_count_at n s) (bytes_of 2 count ++ ties.now) }
{
    written_numbers::write_count(out, set_layout::tie_count_at(n, s), count as u64);
    written_numbers::write_bytes(out, set_layout::ties_at(n, s), ties);
}

// The set writer: the set file of this content, over the front of the output; the rest of it stays. It meets 2, 3, 25, 4, 6, 7,
// 8 (the length of a list of rows, or of the entries of ties), 9, 10, 29, 30, 31 and 24, in that order, and answers with the length of the
// file; a refusal writes nothing.
pub fn write_set(
    m: u64,
    taps: u64,
    inversion: u64,
    spread: &[u64],
    values: &[u8],
    marks: &[u8],
    s: u64,
    ties: &[u8],
    out: &mut [u8],
) -> Result<usize, Refusal>
    ensures answer { said_set_written result ≡ set_write_reply (set_content m taps inversion spread.now values.now marks.now s ties.now) (length out.old) }
    ensures file { out.new ≡ lent (set_write_reply (set_content m taps inversion spread.now values.now marks.now s ties.now) (length out.old)) (set_bytes (set_content m taps inversion spread.now values.now marks.now s ties.now)) out.old }
{
    set_content::check_content(
        m,
        taps,
        inversion,
        spread,
        values,
        marks,
        s,
        ties,
        out.len(),
    )?;
    let n = spread.len() as u16;
    let slices = s as u16;
    let count = (ties.len() / ties::ENTRY_BYTES) as u16;
    write_head(out, m, taps, inversion, spread, s);
    write_slices(out, n, slices, values, marks);
    write_ties(out, n, slices, count, ties);
    Ok(set_layout::set_length(n, slices, count))
}
