ghost use Rattle.std.specs.Prelude.{◌≡◌};
ghost use Rattle.counter.specs.Faults.{counter_refusal};
ghost use Rattle.counter.specs.declared.fault.CounterFault.TheVariants.{Slip, Plan, Account};

use account::fault::AccountFault;
use slip::fault::SlipFault;
use tariff::fault::PlanFault;
use tariff::refusal::Refusal;
use tariff::refused::Refused;

/// Why the counter refuses a slip.
#[derive(Clone, Copy, PartialEq, Eq, Debug)]
pub enum CounterFault {
    /// The bytes are not a slip.
    Slip(SlipFault),
    /// No account is open.
    NotOpen,
    /// An account is open already.
    AlreadyOpen,
    /// The supply that an opening orders is refused.
    Plan(PlanFault),
    /// The account refuses the opening or the call.
    Account(AccountFault),
}

// Each of these names its case, so that a contract knows which fault a `?` carries up; of a derived one it would not.

impl From<SlipFault> for CounterFault {
    ghost from_gives = { λ e r. r ≡ Slip e };

    fn from(e: SlipFault) -> CounterFault {
        CounterFault::Slip(e)
    }
}

impl From<PlanFault> for CounterFault {
    ghost from_gives = { λ e r. r ≡ Plan e };

    fn from(e: PlanFault) -> CounterFault {
        CounterFault::Plan(e)
    }
}

impl From<AccountFault> for CounterFault {
    ghost from_gives = { λ e r. r ≡ Account e };

    fn from(e: AccountFault) -> CounterFault {
        CounterFault::Account(e)
    }
}

impl<S: Drop> From<Refused<S, AccountFault>> for CounterFault {
    ghost from_gives = { λ e r. r ≡ Account e.fault };

    fn from(e: Refused<S, AccountFault>) -> CounterFault {
        CounterFault::Account(e.fault)
    }
}

/// The place is what the refusal is about: a byte of the slip, a day of the account, or 0.
impl From<CounterFault> for Refusal {
    ghost from_gives = { λ fault refusal. refusal ≡ counter_refusal fault };

    fn from(fault: CounterFault) -> Refusal {
        match fault {
            CounterFault::Slip(fault) => fault.into(),
            CounterFault::NotOpen => Refusal {
                number: 17,
                place: 0,
            },
            CounterFault::AlreadyOpen => Refusal {
                number: 18,
                place: 0,
            },
            CounterFault::Plan(fault) => fault.into(),
            CounterFault::Account(fault) => fault.into(),
        }
    }
}
