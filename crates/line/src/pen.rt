ghost use Rattle.std.specs.Prelude.{◌≡◌};
ghost use Rattle.line.specs.Lines.{Handed};

use itoa::{Buffer, Integer};

/// A buffer, and the place up to which it is written.
#[derive(Drop)]
pub struct Pen<'a> {
    pub out: &'a mut [u8],
    pub at: usize,
}

impl<'a> Pen<'a> {
    /// A pen at the front of a buffer.
    pub fn new(out: &'a mut [u8]) -> Pen<'a>
        ensures same_buffer { result.out.ghost_name ≡ out.entry.ghost_name }
        ensures unwritten { result.out.now ≡ out.old }
        ensures front { result.at ≡ 0 }
    {
        Pen { out, at: 0 }
    }

    /// Writes bytes where there is room for all of them, and elsewhere leaves the buffer and the place as they were.
    pub fn put(&mut self, text: &[u8])
        ensures { Handed self.old text.now self.new }
    {
        let end = self.at.saturating_add(text.len());
        if end <= self.out.len() {
            self.out[self.at..end].copy_from_slice(text);
            self.at = end;
        }
    }

    /// Writes a number's digits likewise.
    pub fn put_decimal<I: Integer>(&mut self, n: I)
        ensures { Handed self.old (I.text n) self.new }
    {
        let mut digits = Buffer::new();
        self.put(digits.format(n).as_bytes());
    }
}
