ghost use Rattle.std.specs.Prelude.{◌≡◌, ◌+◌, ◌*◌, ◌≤◌, Some, ok_or};
ghost use Rattle.tariff.specs.Rounding.{half_up};
ghost use Rattle.tariff.specs.Fuel.{constants, average_of, price_at, area_numbered, fuel_of, fuel_refusal, fuel_reason, area_name};
ghost use Rattle.tariff.specs.declared.fuel.FuelFault.TheVariants.{UnknownArea};

use crate::refusal::Refusal;
use crate::rounding::half_up;
use std::fmt;

/// An area whose retailers adjust prices by the average price of fuel.
#[derive(Clone, Copy, PartialEq, Eq, Debug)]
pub enum Area {
    Tokyo,
    Chubu,
    Kansai,
}

/// Why no fuel price was found.
#[derive(Clone, Copy, PartialEq, Eq, Debug)]
pub enum FuelFault {
    /// The area's number is not 1 to 3.
    UnknownArea,
    /// An input is above 400,000 yen.
    Input,
}

/// The three fuel inputs of a month in whole yen, which an area weighs each in its own way.
#[derive(Clone, Copy, PartialEq, Eq, Debug)]
pub struct FuelInputs {
    pub a: u32,
    pub b: u32,
    pub c: u32,
}

/// A month's average fuel price in yen, and the fuel price in sen per kWh that follows from it.
#[derive(Clone, Copy, PartialEq, Eq, Debug)]
pub struct FuelPrice {
    pub area: Area,
    pub average: u32,
    pub price: i16,
}

impl From<FuelFault> for Refusal {
    ghost from_gives = { λ fault refusal. refusal ≡ fuel_refusal fault };

    fn from(fault: FuelFault) -> Refusal {
        let number = match fault {
            FuelFault::UnknownArea => 30,
            FuelFault::Input => 31,
        };
        Refusal { number, place: 0 }
    }
}

impl FuelFault {
    /// What a clerk is told of it.
    pub fn reason(self) -> &'static str
        ensures { result.now ≡ fuel_reason self }
    {
        match self {
            FuelFault::UnknownArea => "the area is not 1 (Tokyo), 2 (Chubu) or 3 (Kansai)",
            FuelFault::Input => "an input is above 400000 yen",
        }
    }
}

impl fmt::Display for FuelFault {
    ghost output = { λ fault. Some (fuel_reason fault) };

    fn fmt<W: fmt::Write>(&self, f: &mut fmt::Formatter<W>) -> fmt::Result {
        f.write_str(self.reason())
    }
}

impl fmt::Display for Area {
    ghost output = { λ area. Some (area_name area) };

    fn fmt<W: fmt::Write>(&self, f: &mut fmt::Formatter<W>) -> fmt::Result {
        f.write_str(self.name())
    }
}

impl TryFrom<u8> for Area {
    type Error = FuelFault;

    ghost try_from_gives = { λ number result. result ≡ ok_or (area_numbered number) UnknownArea };

    /// The area of a number: 1 Tokyo, 2 Chubu, 3 Kansai.
    fn try_from(number: u8) -> Result<Area, FuelFault> {
        match number {
            1 => Ok(Area::Tokyo),
            2 => Ok(Area::Chubu),
            3 => Ok(Area::Kansai),
            _ => Err(FuelFault::UnknownArea),
        }
    }
}

// An area's weights of the three fuels in ten-thousandths, its base price in yen, and its unit.
#[derive(Clone, Copy)]
struct Constants {
    alpha: u16,
    beta: u16,
    gamma: u16,
    base: u32,
    unit: u16,
}

impl Area {
    pub fn name(self) -> &'static str
        ensures { result.now ≡ area_name self }
    {
        match self {
            Area::Tokyo => "Tokyo",
            Area::Chubu => "Chubu",
            Area::Kansai => "Kansai",
        }
    }

    fn constants(self) -> Constants
        ensures constants { result ≡ constants self }
        ensures weights { result.alpha + result.beta + result.gamma ≤ 10850 }
        ensures base { result.base ≤ 86100 }
        ensures unit { result.unit ≤ 223 }
    {
        match self {
            Area::Tokyo => Constants {
                alpha: 48,
                beta: 3_827,
                gamma: 6_584,
                base: 86_100,
                unit: 183,
            },
            Area::Chubu => Constants {
                alpha: 275,
                beta: 4_792,
                gamma: 4_275,
                base: 45_900,
                unit: 223,
            },
            Area::Kansai => Constants {
                alpha: 140,
                beta: 3_483,
                gamma: 7_227,
                base: 27_100,
                unit: 165,
            },
        }
    }
}

// The weighted average of the three inputs, half-up to 100 yen.
fn average(area: Area, inputs: FuelInputs) -> u32
    requires { (inputs.a ≤ 400000) × ((inputs.b ≤ 400000) × (inputs.c ≤ 400000)) }
    ensures value { result ≡ average_of (constants area) inputs.a inputs.b inputs.c }
    ensures bound { result ≤ 434000 }
{
    let constants = area.constants();
    let weighted = u64::from(constants.alpha) * u64::from(inputs.a)
        + u64::from(constants.beta) * u64::from(inputs.b)
        + u64::from(constants.gamma) * u64::from(inputs.c);
    (100 * half_up(weighted, 1_000_000)) as u32
}

// The size of the price where the average is that far from the base.
fn size(distance: u32, unit: u16) -> u16
    requires { (distance ≤ 434000) × (unit ≤ 223) }
    ensures value { result ≡ half_up (distance * unit) 10000 }
    ensures bound { result ≤ 10000 }
{
    half_up(u64::from(distance) * u64::from(unit), 10_000) as u16
}

// The price of an area's average.
fn price(area: Area, average: u32) -> i16
    requires { average ≤ 434000 }
    ensures { result ≡ price_at (constants area).base (constants area).unit average }
{
    let constants = area.constants();
    if average >= constants.base {
        size(average - constants.base, constants.unit) as i16
    } else {
        -(size(constants.base - average, constants.unit) as i16)
    }
}

/// The fuel price of an area's number and a month's fuel inputs.
pub fn fuel_price(area: u8, inputs: FuelInputs) -> Result<FuelPrice, FuelFault>
    ensures { result ≡ fuel_of area inputs.a inputs.b inputs.c }
{
    let area = Area::try_from(area)?;
    let FuelInputs { a, b, c } = inputs;
    if a > 400_000 || b > 400_000 || c > 400_000 {
        return Err(FuelFault::Input);
    }
    let average = average(area, inputs);
    Ok(FuelPrice {
        area,
        average,
        price: price(area, average),
    })
}
