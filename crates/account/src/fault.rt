ghost use Rattle.std.specs.Prelude.{◌≡◌};
ghost use Rattle.account.specs.Faults.{account_refusal, month_fault};

use settlement::fault::MonthFault;
use tariff::refusal::Refusal;

/// Why an account refuses an opening or a call.
#[derive(Clone, Copy, PartialEq, Eq, Debug)]
pub enum AccountFault {
    /// No deposit box has this letter.
    UnknownBox,
    /// The calendar has no months, or more than 12.
    Months,
    /// A month's length is not 1 to 35 days.
    Length,
    /// The calendar's last day lies behind 31 December 2099.
    LastDay,
    /// The day lies beyond the calendar.
    Beyond { day: u16 },
    /// A list does not have 48 figures.
    Figures,
    /// A figure is above 2,500.
    Figure { day: u16 },
    /// The day is posted already.
    Posted { day: u16 },
    /// The day is not posted.
    NotPosted { day: u16 },
    /// The day's month is closed.
    Closed { day: u16 },
    /// Every month is closed.
    AllClosed,
    /// A price lies outside its limit.
    Price,
    /// A day of the open month is missing, the first one.
    Missing { day: u16 },
    /// The month is not closed, or not there.
    NotClosed,
}

impl From<AccountFault> for Refusal {
    ghost from_gives = { λ fault refusal. refusal ≡ account_refusal fault };

    fn from(fault: AccountFault) -> Refusal {
        let (number, place) = match fault {
            AccountFault::UnknownBox => (13, 0),
            AccountFault::Months => (14, 0),
            AccountFault::Length => (15, 0),
            AccountFault::LastDay => (16, 0),
            AccountFault::Beyond { day } => (20, day),
            AccountFault::Figures => (21, 0),
            AccountFault::Figure { day } => (22, day),
            AccountFault::Posted { day } => (23, day),
            AccountFault::NotPosted { day } => (24, day),
            AccountFault::Closed { day } => (25, day),
            AccountFault::AllClosed => (26, 0),
            AccountFault::Price => (27, 0),
            AccountFault::Missing { day } => (28, day),
            AccountFault::NotClosed => (29, 0),
        };
        Refusal { number, place }
    }
}

impl From<MonthFault> for AccountFault {
    ghost from_gives = { λ fault refused. refused ≡ month_fault fault };

    fn from(fault: MonthFault) -> AccountFault {
        match fault {
            MonthFault::UnknownBox => AccountFault::UnknownBox,
            MonthFault::Price => AccountFault::Price,
        }
    }
}
