ghost use Rattle.std.specs.Prelude.{◌≡◌, ◌+◌, ◌<◌, ◌≤◌, length, take, Some, None, MatchResult, sum};
ghost use Rattle.account.specs.Calendars.{lengths_right, calendar_ground};
ghost use Rattle.account.specs.Ledger.{month_in};
ghost use Rattle.account.specs.View.{lengths_of};

use super::Calendar;
use crate::fault::AccountFault;
use std::ops::Range;

// Whether each month has 1 to 35 days.
fn all_right(lengths: &[u8]) -> bool
    ensures { result ≡ lengths_right lengths.now }
{
    lengths.iter().all(|days| (1..=35).contains(days))
}

// The days of the months.
fn total(lengths: &[u8]) -> u16
    requires { length lengths.now ≤ 12 }
    ensures { result ≡ sum lengths.now }
{
    lengths.iter().map(|&days| u16::from(days)).sum()
}

impl Calendar {
    /// The calendar of these month lengths, from a first day number on.
    pub fn new(first: u16, lengths: &[u8]) -> Result<Calendar, AccountFault>
        ensures { MatchResult result (λ c. (c.first ≡ first) × (lengths_of c ≡ lengths.now) × (calendar_ground first lengths.now ≡ None)) (λ f. calendar_ground first lengths.now ≡ Some f) }
    {
        if lengths.is_empty() || lengths.len() > 12 {
            return Err(AccountFault::Months);
        }
        if !all_right(lengths) {
            return Err(AccountFault::Length);
        }
        if u32::from(first) + u32::from(total(lengths)) > 36_525 {
            return Err(AccountFault::LastDay);
        }
        let mut kept = [0; 12];
        kept[..lengths.len()].copy_from_slice(lengths);
        Ok(Calendar {
            first,
            months: lengths.len() as u8,
            lengths: kept,
        })
    }

    // The lengths of its months.
    fn lengths(&self) -> &[u8]
        ensures { result.now ≡ lengths_of self.now }
    {
        &self.lengths[..usize::from(self.months)]
    }

    // The account day on which a month starts, or behind the last month the number of days.
    pub(crate) fn start(&self, month: usize) -> u16
        requires { month ≤ self.now.months }
        ensures { result ≡ sum (take month (lengths_of self.now)) }
    {
        total(&self.lengths[..month])
    }

    // The account days of a month.
    pub(crate) fn days_of(&self, month: usize) -> Range<u16>
        requires { month < self.now.months }
        ensures start { result.start ≡ sum (take month (lengths_of self.now)) }
        ensures end { result.end ≡ sum (take (month + 1) (lengths_of self.now)) }
        ensures rising { result.start ≤ result.end }
        ensures known { result.end ≤ sum (lengths_of self.now) }
        ensures few { result.end ≤ 420 }
    {
        self.start(month)..self.start(month + 1)
    }

    // The number of months.
    pub(crate) fn months(&self) -> usize
        ensures { result ≡ self.now.months }
    {
        usize::from(self.months)
    }

    // The number of account days.
    pub(crate) fn days(&self) -> u16
        ensures { result ≡ sum (lengths_of self.now) }
    {
        total(self.lengths())
    }

    // The day number of an account day, or of the day behind the last.
    pub(crate) fn day_number(&self, day: u16) -> u16
        requires { day ≤ sum (lengths_of self.now) }
        ensures { result ≡ self.now.first + day }
    {
        self.first + day
    }

    // The month of an account day.
    pub(crate) fn month_of(&self, day: u16) -> usize
        ensures { result ≡ month_in (lengths_of self.now) day }
    {
        // Each month takes its days from what is left of the day: so this is a loop.
        let mut left = day;
        for (month, &length) in self.lengths().iter().enumerate() {
            let days = u16::from(length);
            if left < days {
                return month;
            }
            left -= days;
        }
        self.months()
    }
}
