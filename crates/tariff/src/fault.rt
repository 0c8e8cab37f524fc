ghost use Rattle.std.specs.Prelude.{◌≡◌, Some};
ghost use Rattle.tariff.specs.Faults.{plan_refusal, plan_reason};

use crate::refusal::Refusal;
use std::fmt;

/// Why a supply was not made.
#[derive(Clone, Copy, PartialEq, Eq, Debug)]
pub enum PlanFault {
    /// The tariff's number is not 1 to 3.
    Tariff,
    /// The capacity is not 1 to 49.
    Capacity,
    /// The percent of a discount is not 1 to 100.
    Percent,
}

impl From<PlanFault> for Refusal {
    ghost from_gives = { λ fault refusal. refusal ≡ plan_refusal fault };

    fn from(fault: PlanFault) -> Refusal {
        let number = match fault {
            PlanFault::Tariff => 10,
            PlanFault::Capacity => 11,
            PlanFault::Percent => 12,
        };
        Refusal { number, place: 0 }
    }
}

impl PlanFault {
    /// What a clerk is told of it.
    pub fn reason(self) -> &'static str
        ensures { result.now ≡ plan_reason self }
    {
        match self {
            PlanFault::Tariff => "the tariff is not 1 (Standard), 2 (Night) or 3 (Seasonal)",
            PlanFault::Capacity => "the capacity is not 1 to 49",
            PlanFault::Percent => "the percent is not 1 to 100",
        }
    }
}

impl fmt::Display for PlanFault {
    ghost output = { λ fault. Some (plan_reason fault) };

    fn fmt<W: fmt::Write>(&self, f: &mut fmt::Formatter<W>) -> fmt::Result {
        f.write_str(self.reason())
    }
}
