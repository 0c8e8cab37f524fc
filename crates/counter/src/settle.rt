ghost use Rattle.std.specs.Prelude.{◌≡◌, ℕ, suc, ◌+◌, ◌*◌, ◌<◌, ◌≤◌, ◌∷◌, ◌++◌, length, drop, IfOk, Ok, Err};
ghost use Rattle.line.specs.Lines.{line_bytes, written};
ghost use Rattle.slip.specs.declared.fault.SlipFault.{SlipFault as Unread};
ghost use Rattle.counter.specs.declared.fault.CounterFault.TheVariants.{Slip};
ghost use Rattle.counter.specs.Run.{TakenSlip, NoSlip, letter_shown, lines, run_lines, all_bytes, run_bytes, most_bytes, Settled, RunTold, RunLaw};
ghost use Rattle.counter.specs.View.{book_of};

use crate::counter::Counter;
use crate::fault::CounterFault;
use line::fault::LineFault;
use line::line::Line;
use slip::fault::SlipFault;
use slip::reader::Reader;
use tariff::refusal::Refusal;

// The number of the last line that a run can have.
const LAST_LINE: u32 = 999_999;

// The bytes of the longest line.
const LONGEST_LINE: usize = 33;

/// Takes the slips of `input` from an empty book on and writes their lines at the front of `out`. Answers the count of
/// the bytes written. A buffer that is too short is left as it was.
pub fn settle(input: &[u8], out: &mut [u8]) -> Result<usize, LineFault>
    ensures run { Settled input.now out.old out.new result }
    ensures most { length (run_bytes input.now) ≤ most_bytes (length input.now) }
    ensures told { RunTold input.now }
    ensures law { RunLaw input.now }
{
    // a buffer that holds any run of this input need not be measured
    if out.len() < room(input.len()) && measured(input) > out.len() {
        return Err(LineFault::Buffer);
    }
    let mut counter = Counter::new();
    Ok(run(&mut counter, input, out))
}

/// The most bytes that a run of so many bytes can write.
pub fn room(bytes: usize) -> usize
    ensures { result ≡ most_bytes bytes }
{
    LONGEST_LINE * bytes.min(LAST_LINE as usize)
}

// How many bytes a run writes.
fn measured(input: &[u8]) -> usize
    ensures count { result ≡ length (run_bytes input.now) }
    ensures most { result ≤ most_bytes (length input.now) }
{
    let mut counter = Counter::new();
    run(&mut counter, input, &mut [])
}

// Takes the slips of `input` and writes their lines as long as they fit. Answers how many bytes all of them have.
fn run(counter: &mut Counter, input: &[u8], out: &mut [u8]) -> usize
    ensures count { result ≡ length (all_bytes (run_lines (book_of counter.old) input.now)) }
    ensures most { result ≤ most_bytes (length input.now) }
    ensures bytes { result ≤ length out.old → out.new ≡ all_bytes (run_lines (book_of counter.old) input.now) ++ drop result out.old }
{
    let mut at = 0;
    let mut rest = input;
    for number in 1..=LAST_LINE {
        if rest.is_empty() {
            return at;
        }
        let (line, behind) = take_slip(counter, number, rest);
        at = put(out, at, &line);
        rest = behind;
    }
    at
}

// Takes the slip at the front of `text`. Behind bytes that are not a slip nothing is left.
fn take_slip<'a>(counter: &mut Counter, number: u32, text: &'a [u8]) -> (Line, &'a [u8])
    requires { 1 ≤ length text.now }
    ensures line { (left : ℕ) → lines (suc left) number (book_of counter.old) text.now ≡ result.0 ∷ lines left (number + 1) (book_of counter.new) result.1.now }
    ensures numbered { result.0.number ≡ number }
    ensures shorter { length result.1.now < length text.now }
{
    let first = text[0];
    match serve(counter, text) {
        Ok((answer, rest)) => (
            Line {
                number,
                letter: first,
                outcome: answer.map_err(Refusal::from),
            },
            rest,
        ),
        Err(fault) => (
            Line {
                number,
                letter: letter_shown(first, fault),
                outcome: Err(fault.into()),
            },
            &[],
        ),
    }
}

// Reads the slip at the front of `text` and takes it: its answer, and the bytes behind it. Bytes that are not a slip are
// not taken.
fn serve<'a>(
    counter: &mut Counter,
    text: &'a [u8],
) -> Result<(Result<i64, CounterFault>, &'a [u8]), CounterFault>
    ensures answer { elim result [ Ok served ↦ TakenSlip (book_of counter.old) text.now (book_of counter.new) served.0 served.1.now | Err fault ↦ NoSlip text.now fault ] }
    ensures shorter { IfOk result (λ served. length served.1.now < length text.now) }
{
    let read = (Reader { text }).read_slip()?;
    Ok((counter.take(&read.slip), read.rest))
}

// The letter on the line of bytes that are not a slip.
fn letter_shown(first: u8, fault: CounterFault) -> u8
    ensures { (unread : Unread) → fault ≡ Slip unread → result ≡ letter_shown first unread }
{
    match fault {
        CounterFault::Slip(SlipFault::Letter) => b'?',
        _ => first,
    }
}

// Writes a line at a place of `out` if it fits there, and answers the place behind it. A run is measured on a buffer that
// holds none of it, so the place goes on where a pen would stop.
fn put(out: &mut [u8], at: usize, line: &Line) -> usize
    requires { (at ≤ 33 * 999999) × (line.now.number ≤ 999999) }
    ensures place { result ≡ at + length (line_bytes line.now) }
    ensures near { result ≤ at + 33 }
    ensures bytes { result ≤ length out.old → out.new ≡ written out.old at (line_bytes line.now) }
{
    let end = at + line.length();
    if end <= out.len() {
        line.write(&mut out[at..]).unwrap();
    }
    end
}
