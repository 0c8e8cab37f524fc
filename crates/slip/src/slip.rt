mod methods;

use settlement::prices::MonthPrices;
use settlement::reading::DayFigures;

/// What an opening is handed, as its bytes have it: a tariff or a box that does not exist is refused by the counter, each
/// behind other grounds.
#[derive(Clone, Copy)]
pub struct Opening<'a> {
    pub tariff: u8,
    pub capacity: u8,
    pub percent: u8,
    pub letter: u8,
    pub first: u16,
    pub lengths: &'a [u8],
}

/// An opening or a call, which holds a day's lists of figures as an `F` each. A day stands beside its figures, as in the
/// ledger, which keeps them by their day.
#[derive(Clone, Copy)]
pub enum Order<'a, F> {
    Open(Opening<'a>),
    Post { day: u16, figures: DayFigures<F> },
    Correct { day: u16, figures: DayFigures<F> },
    Strike { day: u16 },
    Close(MonthPrices),
}

/// A slip as it was read. An opening's calendar stays in the bytes it was read from.
pub type Slip<'a> = Order<'a, [u16; 48]>;

/// A call to be written as a slip, with lists of any length.
pub type SlipCall<'a> = Order<'a, &'a [u16]>;
