ghost use Rattle.std.specs.Prelude.{◌≡◌, ◌+◌, ◌*◌, ◌≤◌, take};
ghost use Rattle.settlement.specs.Usage.{whole_kwh, kwh_by_class};

use crate::totals::Totals;
use tariff::rounding::round_hundredths;

// Hundredths of a month, half-up to kWh.
pub(crate) fn to_kwh(hundredths: u32) -> u32
    requires { hundredths ≤ 4200000 }
    ensures value { result ≡ whole_kwh hundredths }
    ensures bound { result ≤ 42000 }
    ensures covers { hundredths ≤ 100 * result + 99 }
{
    round_hundredths(u64::from(hundredths)) as u32
}

// The kWh of each class, which add up to the month's usage, in as many places as a tariff has classes at most. Behind the
// last class is none, whatever totals made by hand have there.
pub(crate) fn by_class(totals: &Totals, usage: u32) -> [u32; 4]
    requires { totals.now.used ≤ 100 * usage + 99 }
    ensures { take totals.now.classes result ≡ kwh_by_class usage (take totals.now.classes totals.now.by_class) }
{
    let last = usize::from(totals.classes) - 1;
    let mut kwh = totals.by_class.map(|hundredths| hundredths / 100);
    kwh[last] = usage - kwh[..last].iter().sum::<u32>();
    kwh[last + 1..].fill(0);
    kwh
}
