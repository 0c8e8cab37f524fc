ghost use Rattle.std.specs.Prelude.{◌≡◌, ◌+◌, ◌≤◌, length};
ghost use Rattle.line.specs.Lines.{outcome_bytes, line_bytes, LineWritten, HasRoom, Wrote};

use crate::fault::LineFault;
use crate::pen::Pen;
use itoa::{Buffer, Integer};
use tariff::refusal::Refusal;

/// A line of a run: the call's number, its letter and what became of it: the amount it was answered with, or its
/// refusal.
#[derive(Clone, Copy)]
pub struct Line {
    pub number: u32,
    pub letter: u8,
    pub outcome: Result<i64, Refusal>,
}

impl Line {
    /// The count of the line's bytes, its line feed among them.
    pub fn length(&self) -> usize
        ensures count { result ≡ length (line_bytes self.now) }
        ensures bound { self.now.number ≤ 999999 → result ≤ 33 }
    {
        decimal_length(self.number) + 3 + outcome_length(self.outcome) + 1
    }

    /// Writes the line at the front of `out`, and answers the count of its bytes. A buffer that is too short is
    /// left as it was.
    pub fn write(&self, out: &mut [u8]) -> Result<usize, LineFault>
        ensures line { LineWritten self.now out.old out.new result }
        ensures bound { self.now.number ≤ 999999 → length (line_bytes self.now) ≤ 33 }
    {
        if out.len() < self.length() {
            return Err(LineFault::Buffer);
        }
        // The letter is any byte, and a `Display` writes text.
        let mut pen = Pen::new(out);
        pen.put_decimal(self.number);
        pen.put(&[b' ', self.letter, b' ']);
        put_outcome(&mut pen, self.outcome);
        pen.put(b"\n");
        Ok(pen.at)
    }
}

fn decimal_length<I: Integer>(n: I) -> usize
    ensures count { result ≡ length (I.text n) }
    ensures bound { result ≤ I.MAX_STR_LEN }
{
    Buffer::new().format(n).len()
}

fn outcome_length(outcome: Result<i64, Refusal>) -> usize
    ensures count { result ≡ length (outcome_bytes outcome) }
    ensures bound { result ≤ 23 }
{
    match outcome {
        Ok(amount) => 3 + decimal_length(amount),
        Err(Refusal { number, place }) => 3 + decimal_length(number) + 1 + decimal_length(place),
    }
}

fn put_outcome(pen: &mut Pen, outcome: Result<i64, Refusal>)
    requires { HasRoom pen.old (outcome_bytes outcome) }
    ensures { Wrote pen.old (outcome_bytes outcome) pen.new }
{
    match outcome {
        Ok(amount) => {
            pen.put(b"ok ");
            pen.put_decimal(amount);
        }
        Err(Refusal { number, place }) => {
            pen.put(b"no ");
            pen.put_decimal(number);
            pen.put(b" ");
            pen.put_decimal(place);
        }
    }
}
