ghost use Rattle.settlement_tests.specs.TwoRates.{rates, rate_tables};
ghost use Rattle.settlement_tests.specs.Rates.{rates_lawful};
ghost use Rattle.std.specs.Prelude.{refl};

use super::TwoRates;
use tariff::steps::Step;
use tariff::supply::{Supply, Tariff};

impl Tariff for TwoRates {
    const CLASSES: u8 = 2;

    ghost CLASSES = { 2 };

    ghost meaning = { λ t. (rates t).tariff };

    ghost tables = { rate_tables };

    ghost kind = { λ _. refl };

    ghost lawful = { λ t. (rates_lawful t).tariff };

    fn class(&self, day: u16, rest: bool, half_hour: u8) -> Option<u8> {
        if day > 36_524 {
            return None;
        }
        match half_hour {
            0..=23 => Some(0),
            24..=47 => Some(1),
            _ => None,
        }
    }

    fn step(&self, class: u8, step: u8) -> Option<Step> {
        match class {
            0 => self.morning.step(step),
            1 => self.afternoon.step(step),
            _ => None,
        }
    }
}

impl Supply for TwoRates {
    ghost whole = { rates };

    ghost tariff = { λ _. refl };

    ghost bound = { λ t. rates_lawful t };

    fn basic(&self, used: bool) -> u32 {
        0
    }

    fn minimum(&self) -> u32 {
        0
    }
}
