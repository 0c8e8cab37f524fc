ghost use Rattle.std.specs.Prelude.{refl};
ghost use Rattle.tariff.specs.Capacities.{MadeAt};
ghost use Rattle.tariff.specs.Tariffs.{seasonal, seasonal_tables};
ghost use Rattle.tariff.specs.Lawful.{seasonal_lawful};

use super::Seasonal;
use crate::capacity::Capacity;
use crate::day::Day;
use crate::fault::PlanFault;
use crate::rounding::half_unless;
use crate::steps::{Step, StepTable};
use crate::supply::{Supply, Tariff};

impl Seasonal {
    /// The tariff at a capacity of 1 to 49 kW.
    pub fn new(capacity: u8) -> Result<Seasonal, PlanFault>
        ensures { MadeAt (λ s. s.capacity.size) capacity result }
    {
        Ok(Seasonal {
            capacity: Capacity::try_from(capacity)?,
            peak: StepTable::of(&[(None, 3_853)]),
            summer_day: StepTable::of(&[(None, 3_011)]),
            other_day: StepTable::of(&[(None, 2_736)]),
            remaining: StepTable::of(&[(None, 1_553)]),
        })
    }
}

impl Tariff for Seasonal {
    const CLASSES: u8 = 4;

    ghost CLASSES = { 4 };

    ghost meaning = { λ t. (seasonal t.capacity.size).tariff };

    ghost tables = { λ _. seasonal_tables };

    ghost kind = { λ _. refl };

    ghost lawful = { λ t. (seasonal_lawful t.capacity.size t.capacity.within.1).tariff };

    fn class(&self, day: u16, rest: bool, half_hour: u8) -> Option<u8> {
        let day = Day::new(day)?;
        match half_hour {
            26..=31 if day.is_summer() && !day.is_weekend() && !rest => Some(0),
            16..=43 if day.is_summer() => Some(1),
            16..=43 => Some(2),
            0..=47 => Some(3),
            _ => None,
        }
    }

    fn step(&self, class: u8, step: u8) -> Option<Step> {
        match class {
            0 => self.peak.step(step),
            1 => self.summer_day.step(step),
            2 => self.other_day.step(step),
            3 => self.remaining.step(step),
            _ => None,
        }
    }
}

impl Supply for Seasonal {
    ghost whole = { λ s. seasonal s.capacity.size };

    ghost tariff = { λ _. refl };

    ghost bound = { λ s. seasonal_lawful s.capacity.size s.capacity.within.1 };

    fn basic(&self, used: bool) -> u32 {
        let full = 130_240 + 41_694 * u32::from(self.capacity.size.saturating_sub(10));
        half_unless(used, full)
    }

    fn minimum(&self) -> u32 {
        0
    }
}
