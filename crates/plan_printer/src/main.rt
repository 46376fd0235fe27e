// The plan printer: reads a set from standard input and prints its plan. It sees the plan's text, and what reads and writes.
#![tactic(auto)]

ghost use Rattle.std.specs.Prelude.{◌≡◌, suc, ◌≤◌, length, IfOk};
ghost use Rattle.word.specs.Reply.{front};
ghost use Rattle.plan_text.specs.PlanText.{longest, printed_text};

use std::io;
use std::io::{Print, Read, Stderr, Stdin};

// So many bytes of the input are read: one more than the longest set has. A longer input prints what these print (plan_text,
// proofs/InputLaws.antt, long_printed).
const MOST_BYTES: usize = 36633;

// Document 01: "It lends 4,096 column places"; document 02, No. 3: "The printer still lends 4,096 and prints 14 no more."
const WORKING_PLACES: usize = 4096;

// A set has no more words than its register has bits.
const WORD_PLACES: usize = 64;

// Room for so many bytes. A function of its own, so that its contract says how many there are: one more than the longest set has.
fn no_bytes() -> [u8; MOST_BYTES]
    ensures { length result ≡ suc longest }
{
    [0u8; MOST_BYTES]
}

// The working list's places, and the word list's: functions of their own, so that their contracts say how many there are.
fn no_places() -> [u64; WORKING_PLACES]
    ensures { length result ≡ 4096 }
{
    [0; WORKING_PLACES]
}

fn no_words() -> [u64; WORD_PLACES]
    ensures { length result ≡ 64 }
{
    [0; WORD_PLACES]
}

// The text of a set, with the places that the plan printer lends. Answers with its length and writes it over the front of `out`.
fn print_set(set: &[u8], out: &mut [u8; 4096]) -> usize
    ensures count { result ≡ length (printed_text set.now) }
    ensures text { out.new ≡ front (printed_text set.now) out.old }
{
    let mut working = no_places();
    let mut words = no_words();
    plan_text::print_plan(set, &mut working, &mut words, out)
}

// Reads standard input over the front of `bytes`, until it is full or the input ends. A read that fails is told apart from the
// end of the input; one that a signal interrupts counts as failed.
fn read_input(stdin: &mut Stdin, bytes: &mut [u8]) -> io::Result<usize>
    ensures { IfOk result (λ count. count ≤ length bytes.new) }
{
    let mut count: usize = 0;
    // no plainer: each read says how many bytes came.
    while count < bytes.len() {
        let more = stdin.read(&mut bytes[count..])?;
        if more == 0 {
            return Ok(count);
        }
        count += more;
    }
    Ok(count)
}

fn tell_unread(stderr: Stderr) -> io::Result<()> {
    stderr.write_all(b"plan_printer: reading standard input failed\n")
}

fn tell_unwritten(stderr: Stderr) -> io::Result<()> {
    stderr.write_all(b"plan_printer: writing standard output failed\n")
}

fn main(rt: HostRuntime) -> io::Result<()> {
    let mut bytes = no_bytes();
    let Ok(count) = read_input(&mut rt.stdin(), &mut bytes) else {
        return tell_unread(rt.stderr());
    };
    let mut out = [0; 4096];
    let end = print_set(&bytes[..count], &mut out);
    if rt.stdout().write_all(&out[..end]).is_err() {
        return tell_unwritten(rt.stderr());
    }
    Ok(())
}
