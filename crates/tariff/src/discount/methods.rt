ghost use Rattle.std.specs.Prelude.{◌≡◌, ◌≤◌, true, false, Ok, Err};
ghost use Rattle.std.proofs.Common.{ap};
ghost use Rattle.tariff.specs.Discount.{is_percent, percent_of, discounted, discounted_tariff, discounted_tables, DiscountHolds};
ghost use Rattle.tariff.specs.Percent.{tariff_kept, supply_kept};

use super::Discount;
use crate::fault::PlanFault;
use crate::refused::Refused;
use crate::rounding::round_hundredths;
use crate::steps::Step;
use crate::supply::{Supply, Tariff};

impl<S: Supply> Discount<S> {
    /// The supply at 1 to 100 percent of its prices.
    pub fn new(supply: S, percent: u8) -> Result<Discount<S>, Refused<S, PlanFault>>
        ensures made { elim result [ Ok d ↦ (d.supply ≡ supply) × (d.percent ≡ percent) × (is_percent percent ≡ true) | Err e ↦ (e.supply ≡ supply) × (e.fault ≡ PlanFault.Percent) × (is_percent percent ≡ false) ] }
        ensures holds { elim result [ Ok d ↦ DiscountHolds percent (S.Supply.whole supply) (S.Tariff.tables supply) | Err e ↦ Unit {0} ] }
    {
        if !(1..=100).contains(&percent) {
            return Err(Refused {
                supply,
                fault: PlanFault::Percent,
            });
        }
        Ok(Discount { supply, percent })
    }
}

// The price at a percent, half-up to a sen.
fn price_at(percent: u8, price: u32) -> u32
    requires { percent ≤ 100 }
    ensures { result ≡ percent_of percent price }
{
    round_hundredths(u64::from(price) * u64::from(percent)) as u32
}

impl<T: Tariff> Tariff for Discount<T> {
    const CLASSES: u8 = T::CLASSES;

    ghost CLASSES = { T.Tariff.CLASSES };

    ghost meaning = { λ d. discounted_tariff d.percent (T.Tariff.meaning d.supply) };

    ghost tables = { λ d. discounted_tables d.percent (T.Tariff.tables d.supply) };

    ghost kind = { λ d. T.Tariff.kind d.supply };

    ghost lawful = { λ d. tariff_kept d.percent d.part.1 _ _ (T.Tariff.lawful d.supply) };

    fn class_count() -> u8 {
        T::class_count()
    }

    fn class(&self, day: u16, rest: bool, half_hour: u8) -> Option<u8> {
        self.supply.class(day, rest, half_hour)
    }

    fn step(&self, class: u8, step: u8) -> Option<Step> {
        let (end, price) = self.supply.step(class, step)?;
        Some((end, price_at(self.percent, price)))
    }
}

impl<S: Supply> Supply for Discount<S> {
    ghost whole = { λ d. discounted d.percent (S.Supply.whole d.supply) };

    ghost tariff = { λ d. ap (discounted_tariff d.percent) (S.Supply.tariff d.supply) };

    ghost bound = { λ d. supply_kept d.percent d.part.1 _ _ (S.Supply.bound d.supply) };

    fn basic(&self, used: bool) -> u32 {
        self.supply.basic(used)
    }

    fn minimum(&self) -> u32 {
        self.supply.minimum()
    }
}
