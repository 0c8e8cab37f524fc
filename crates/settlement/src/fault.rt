ghost use Rattle.std.specs.Prelude.{◌≡◌, Some};
ghost use Rattle.settlement.specs.Faults.{month_refusal, month_reason};

use std::fmt;
use tariff::refusal::Refusal;

/// Why a month cannot be settled as asked.
#[derive(Clone, Copy, PartialEq, Eq, Debug)]
pub enum MonthFault {
    /// No deposit box has this letter.
    UnknownBox,
    /// A price lies outside its limit.
    Price,
}

impl From<MonthFault> for Refusal {
    ghost from_gives = { λ fault refusal. refusal ≡ month_refusal fault };

    fn from(fault: MonthFault) -> Refusal {
        let number = match fault {
            MonthFault::UnknownBox => 13,
            MonthFault::Price => 27,
        };
        Refusal { number, place: 0 }
    }
}

impl MonthFault {
    /// What a clerk is told of it.
    pub fn reason(self) -> &'static str
        ensures { result.now ≡ month_reason self }
    {
        match self {
            MonthFault::UnknownBox => "the box is not S, M, L, T or R",
            MonthFault::Price => "fuel is not -10000 to 10000, or levy or buy not 0 to 10000",
        }
    }
}

impl fmt::Display for MonthFault {
    ghost output = { λ fault. Some (month_reason fault) };

    fn fmt<W: fmt::Write>(&self, f: &mut fmt::Formatter<W>) -> fmt::Result {
        f.write_str(self.reason())
    }
}
