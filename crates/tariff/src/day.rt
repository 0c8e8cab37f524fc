ghost use Rattle.std.specs.Prelude.{◌≡◌, ◌<◌, ◌≤◌, MatchOption};
ghost use Rattle.tariff.specs.Calendar.{date, summer, weekend};

/// A day of the years 2000 to 2099, by its number: 0 is Saturday 1 January 2000, 36,524 is 31 December 2099.
#[derive(Clone, Copy)]
pub struct Day {
    number: u16,
    ghost exists: { number ≤ 36524 },
}

// Every fourth year from 2000 on is a leap year, and the first of its four.
const FOUR_YEARS: u16 = 1461;

const LEAP_YEAR: u16 = 366;

const YEAR: u16 = 365;

// The days of a common year, counted from 0, on which summer begins and is over: 1 July and 1 October.
const JULY: u16 = 181;

const OCTOBER: u16 = 273;

impl Day {
    pub fn new(number: u16) -> Option<Day>
        ensures { MatchOption result (36524 < number) (λ d. d.number ≡ number) }
    {
        if number > 36_524 {
            return None;
        }
        Some(Day { number })
    }

    /// Whether the day lies in summer, 1 July to 30 September.
    pub fn is_summer(self) -> bool
        ensures { result ≡ summer (date self.number) }
    {
        let of_four_years = self.number % FOUR_YEARS;
        if of_four_years < LEAP_YEAR {
            return of_four_years > JULY && of_four_years <= OCTOBER;
        }
        let of_year = (of_four_years - LEAP_YEAR) % YEAR;
        of_year >= JULY && of_year < OCTOBER
    }

    /// Whether the day is a Saturday or a Sunday.
    pub fn is_weekend(self) -> bool
        ensures { result ≡ weekend (date self.number).weekday }
    {
        self.number % 7 < 2
    }
}
