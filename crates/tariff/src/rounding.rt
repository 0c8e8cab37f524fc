ghost use Rattle.std.specs.Prelude.{◌≡◌, ◌<◌};
ghost use Rattle.tariff.specs.Rounding.{half_up};
ghost use Rattle.tariff.specs.Tariffs.{halved_unless};

// n / d, half-up.
pub(crate) fn half_up(n: u64, d: u64) -> u64
    requires { 0 < d }
    ensures { result ≡ half_up n d }
{
    let rest = n % d;
    if rest >= d - rest { n / d + 1 } else { n / d }
}

/// Hundredths, half-up to whole ones.
pub fn round_hundredths(hundredths: u64) -> u64
    ensures { result ≡ half_up hundredths 100 }
{
    half_up(hundredths, 100)
}

// A basic charge, which is halved in a month without any use.
pub(crate) fn half_unless(used: bool, basic: u32) -> u32
    ensures { result ≡ halved_unless used basic }
{
    if used { basic } else { basic / 2 }
}
