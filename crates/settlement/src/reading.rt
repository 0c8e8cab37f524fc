mod methods;

ghost use Rattle.std.specs.Prelude.{◌≡◌, true};
ghost use Rattle.settlement.specs.Limits.{figures_within};

/// A day's figures as handed in: its rest mark, and the energy used and the surplus of its half-hours, in a slice or an
/// array each.
#[derive(Clone, Copy)]
pub struct DayFigures<F> {
    pub rest: bool,
    pub used: F,
    pub surplus: F,
}

/// The reading of a day: its rest mark, and for each half-hour the energy used and the surplus, in hundredths of a kWh,
/// each 0 to 2,500.
// A type beside `DayFigures`: figures are handed in that nothing has checked yet, and are refused with their day.
#[derive(Clone, Copy)]
pub struct Reading {
    pub rest: bool,
    pub used: [u16; 48],
    pub surplus: [u16; 48],
    ghost used_within: { figures_within used ≡ true },
    ghost surplus_within: { figures_within surplus ≡ true },
}

/// Why lists of figures make no reading.
#[derive(Clone, Copy, PartialEq, Eq, Debug)]
pub enum ReadingFault {
    /// A list does not have 48 figures.
    Length,
    /// A figure is above 2,500.
    Figure,
}
