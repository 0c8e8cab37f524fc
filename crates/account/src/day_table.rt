ghost use Rattle.std.specs.Prelude.{◌≡◌, ◌-◌, ◌<◌, ◌≤◌, length, take, drop, replicate, is_some, None, slice_set};
ghost use Rattle.std.specs.List.{range_with_len};
ghost use Rattle.account.specs.Ledger.{first_missing};
ghost use Rattle.account.specs.Standing.{standing_in};

use settlement::reading::Reading;
use std::ops::Range;

/// A place for the reading of each account day: twelve months of 35 days. An account takes no allocator, so they are an
/// array of empty places from its opening on.
#[derive(Clone, Copy)]
pub struct DayTable {
    days: [Option<Reading>; 420],
    ghost wide: { length days ≡ 420 },
}

impl DayTable {
    // No day is read yet.
    pub(crate) fn new() -> DayTable
        ensures { result.days ≡ replicate 420 None }
    {
        DayTable { days: [None; 420] }
    }

    // Whether a reading stands on the day.
    pub(crate) fn has(&self, day: u16) -> bool
        ensures { result ≡ is_some (standing_in self.now.days day) }
    {
        matches!(self.days.get(usize::from(day)), Some(Some(_)))
    }

    // Has the reading stand on the day, or none.
    pub(crate) fn put(&mut self, day: u16, reading: Option<Reading>)
        requires { day < 420 }
        ensures { self.new.days ≡ slice_set self.old.days day reading }
    {
        self.days[usize::from(day)] = reading;
    }

    // The readings of some days.
    pub(crate) fn part(&self, days: Range<u16>) -> &[Option<Reading>]
        requires rising { days.start ≤ days.end }
        requires few { days.end ≤ 420 }
        ensures { result.now ≡ take (days.end - days.start) (drop days.start self.now.days) }
    {
        &self.days[usize::from(days.start)..usize::from(days.end)]
    }

    // The first of some days on which no reading stands.
    pub(crate) fn first_missing(&self, mut days: Range<u16>) -> Option<u16>
        ensures { result ≡ first_missing (standing_in self.now.days) (range_with_len days.start (days.end - days.start)) }
    {
        days.find(|&day| !self.has(day))
    }
}
