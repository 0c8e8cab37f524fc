ghost use Rattle.std.specs.Prelude.{◌≡◌, ℕ, List};
ghost use Rattle.tariff.specs.Meaning.{TariffMeaning, Meaning, LawfulTariff, Lawful, EveryKwhPriced};
ghost use Rattle.tariff.specs.Steps.{Step, step_at};

use crate::steps::Step;

/// The time classes of a contract and their prices.
pub trait Tariff {
    /// The number of time classes, fixed for the kind of tariff.
    const CLASSES: u8;

    ghost CLASSES: { ℕ };

    ghost meaning: { Self → TariffMeaning };

    // the steps of each class; tariffs of equal meaning may cut them differently
    ghost tables: { Self → List (List Step) };

    fn class_count() -> u8
        ensures { result ≡ CLASSES }
    {
        Self::CLASSES
    }

    /// The class of a half-hour, by day number and the rest mark of the day's reading. Classes are numbered from 0 in the
    /// order of the tariff's tables, and differ from one kind of tariff to the next.
    fn class(&self, day: u16, rest: bool, half_hour: u8) -> Option<u8>
        ensures { result ≡ (meaning self.now).class day rest half_hour };

    /// A step of a class: its end in kWh (none for the last step) and its price in sen.
    fn step(&self, class: u8, step: u8) -> Option<Step>
        ensures { result ≡ step_at (tables self.now) class step };

    ghost kind: { (t : Self) → (meaning t).classes ≡ CLASSES };

    ghost lawful: { (t : Self) → LawfulTariff (meaning t) (tables t) };
}

/// A tariff with a basic charge and a minimum.
pub trait Supply: Tariff {
    ghost whole: { Self → Meaning };

    /// The month's basic charge in sen, by whether any energy was used.
    fn basic(&self, used: bool) -> u32
        ensures { result ≡ (whole self.now).basic used };

    /// The least that a month's supply costs, in sen.
    fn minimum(&self) -> u32
        ensures { result ≡ (whole self.now).minimum };

    ghost tariff: { (s : Self) → (whole s).tariff ≡ Self.Tariff.meaning s };

    ghost bound: { (s : Self) → Lawful (whole s) (Self.Tariff.tables s) };
}

/// The price in sen of kWh number `kwh` of a class in a month, counted from 0; none where there is no such class.
pub fn price_of<T: Tariff>(tariff: &T, class: u8, kwh: u32) -> Option<u32>
    ensures value { result ≡ (T.meaning tariff.now).price class kwh }
    ensures every { EveryKwhPriced (T.meaning tariff.now) (T.tables tariff.now) }
{
    // A step is asked of the tariff by its number, so there is no slice to go over; and of a chain over the numbers no
    // clause says which steps its closures saw.
    for i in 0..4u8 {
        match tariff.step(class, i) {
            Some((Some(end), price)) => {
                if kwh < end {
                    return Some(price);
                }
            }
            Some((None, price)) => return Some(price),
            None => return None,
        }
    }
    None
}
