ghost use Rattle.std.specs.Prelude.{◌≡◌};
ghost use Rattle.settlement.specs.Limits.{figures_within};
ghost use Rattle.settlement.specs.Readings.{ReadingGiven};

use super::{DayFigures, Reading, ReadingFault};

impl<'a> TryFrom<DayFigures<&'a [u16]>> for Reading {
    type Error = ReadingFault;

    ghost try_from_gives = { λ given r. ReadingGiven given.rest given.used.now given.surplus.now r };

    fn try_from(given: DayFigures<&'a [u16]>) -> Result<Reading, ReadingFault> {
        let used = <[u16; 48]>::try_from(given.used).map_err(|_| ReadingFault::Length)?;
        let surplus = <[u16; 48]>::try_from(given.surplus).map_err(|_| ReadingFault::Length)?;
        if !all_within(given.used) || !all_within(given.surplus) {
            return Err(ReadingFault::Figure);
        }
        Ok(Reading {
            rest: given.rest,
            used,
            surplus,
        })
    }
}

fn all_within(figures: &[u16]) -> bool
    ensures { result ≡ figures_within figures.now }
{
    figures.iter().all(|figure| *figure <= 2_500)
}
