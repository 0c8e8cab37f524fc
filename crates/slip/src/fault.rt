ghost use Rattle.std.specs.Prelude.{◌≡◌};
ghost use Rattle.slip.specs.Faults.{slip_refusal, writing_refusal};

use tariff::refusal::Refusal;

/// Why bytes are not read as a slip. A place counts the slip's bytes from 0.
#[derive(Clone, Copy, PartialEq, Eq, Debug)]
pub enum SlipFault {
    /// There are no bytes.
    Empty,
    /// No kind of slip has this letter.
    Letter,
    /// The bytes end inside the slip, after so many.
    Short { bytes: u16 },
    /// A map has a bit without meaning.
    Map { place: u16 },
    /// A figure or price is zero though its map bit stands.
    Zero { place: u16 },
    /// The rest byte is not 0 or 1.
    Rest { place: u16 },
    /// The number of months is not 1 to 12.
    Months { place: u16 },
}

impl From<SlipFault> for Refusal {
    ghost from_gives = { λ fault refusal. refusal ≡ slip_refusal fault };

    fn from(fault: SlipFault) -> Refusal {
        let (number, place) = match fault {
            SlipFault::Empty => (1, 0),
            SlipFault::Letter => (2, 0),
            SlipFault::Short { bytes } => (3, bytes),
            SlipFault::Map { place } => (4, place),
            SlipFault::Zero { place } => (5, place),
            SlipFault::Rest { place } => (6, place),
            SlipFault::Months { place } => (7, place),
        };
        Refusal { number, place }
    }
}

/// Why a call is not written as a slip.
#[derive(Clone, Copy, PartialEq, Eq, Debug)]
pub enum WritingFault {
    /// The calendar has no months, or more than 12.
    Months,
    /// A list does not have 48 figures.
    Figures,
    /// The buffer is too short.
    Buffer,
}

impl From<WritingFault> for Refusal {
    ghost from_gives = { λ fault refusal. refusal ≡ writing_refusal fault };

    fn from(fault: WritingFault) -> Refusal {
        let number = match fault {
            WritingFault::Months => 14,
            WritingFault::Figures => 21,
            WritingFault::Buffer => 40,
        };
        Refusal { number, place: 0 }
    }
}
