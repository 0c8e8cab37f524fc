ghost use Rattle.std.specs.Prelude.{◌≡◌};
ghost use Rattle.line.specs.Faults.{line_refusal};

use tariff::refusal::Refusal;

/// Why a line is not written.
#[derive(Clone, Copy, PartialEq, Eq, Debug)]
pub enum LineFault {
    /// The buffer is too short.
    Buffer,
}

impl From<LineFault> for Refusal {
    ghost from_gives = { λ fault refusal. refusal ≡ line_refusal fault };

    fn from(fault: LineFault) -> Refusal {
        match fault {
            LineFault::Buffer => Refusal {
                number: 40,
                place: 0,
            },
        }
    }
}
