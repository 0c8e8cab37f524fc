ghost use Rattle.std.specs.Prelude.{◌≡◌, ℕ, ◌+◌, ◌<◌, ◌≤◌, true, length, take, sum, slice_index};
ghost use Rattle.std.specs.Option.{option_map};
ghost use Rattle.settlement.specs.Limits.{figures_within};
ghost use Rattle.settlement.specs.Totals.{figures_of, all_figures, day_in_class, gathered, given_totals, month_of};

use super::Totals;
use crate::reading::Reading;
use tariff::supply::Tariff;

impl Totals {
    /// The totals of used hundredths by class and surplus hundredths, as far as a month of 35 days can have them.
    pub fn new(used: &[u32], surplus: u32) -> Option<Totals>
        ensures { option_map month_of result ≡ given_totals used.now surplus }
    {
        if used.is_empty() || used.len() > 4 || surplus > 4_200_000 {
            return None;
        }
        let all: u64 = used.iter().map(|hundredths| u64::from(*hundredths)).sum();
        if all > 4_200_000 {
            return None;
        }
        let mut by_class = [0; 4];
        by_class[..used.len()].copy_from_slice(used);
        Some(Totals {
            days: 35,
            classes: used.len() as u8,
            used: all as u32,
            by_class,
            surplus,
        })
    }
}

// The sum of a day's figures.
fn total(figures: &[u16; 48]) -> u32
    requires { figures_within figures.now ≡ true }
    ensures value { result ≡ sum figures.now }
    ensures bound { result ≤ 120000 }
{
    figures.iter().map(|figure| u32::from(*figure)).sum()
}

// Adds the day's used energy to the sums by class, each half-hour to that of its class.
fn add_classes<T: Tariff>(tariff: &T, day: u16, reading: &Reading, sums: &mut [u32; 4])
    requires day { day ≤ 36524 }
    requires room { sum (take T.CLASSES sums.old) ≤ 4080000 }
    ensures each { (class : ℕ) → class < T.CLASSES → slice_index sums.new class ≡ slice_index sums.old class + day_in_class (T.meaning tariff.now) class (day, figures_of reading.now) }
    ensures all { sum (take T.CLASSES sums.new) ≡ sum (take T.CLASSES sums.old) + sum reading.now.used }
{
    for (half_hour, used) in reading.used.iter().enumerate() {
        if let Some(class) = tariff.class(day, reading.rest, half_hour as u8) {
            sums[class as usize] += u32::from(*used);
        }
    }
}

/// The totals of a month of consecutive days from a day number on; none where a day is missing or not on the calendar,
/// or where there are more than 35.
pub fn gather<T: Tariff>(tariff: &T, first: u16, days: &[Option<Reading>]) -> Option<Totals>
    ensures { option_map month_of result ≡ gathered (T.meaning tariff.now) first (all_figures days.now) }
{
    if days.len() > 35 || usize::from(first) + days.len() > 36_525 {
        return None;
    }
    let mut used = 0;
    let mut by_class = [0; 4];
    let mut surplus = 0;
    for (i, day) in days.iter().enumerate() {
        let reading = day.as_ref()?;
        used += total(&reading.used);
        add_classes(tariff, first + i as u16, reading, &mut by_class);
        surplus += total(&reading.surplus);
    }
    Some(Totals {
        days: days.len() as u8,
        classes: T::class_count(),
        used,
        by_class,
        surplus,
    })
}
