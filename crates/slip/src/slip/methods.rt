ghost use Rattle.std.specs.Prelude.{◌≡◌};
ghost use Rattle.slip.specs.View.{called, slip_of};

use super::{Order, Slip, SlipCall};
use settlement::reading::DayFigures;

/// The call that was read, to be written again.
impl<'a> From<&'a Slip<'a>> for SlipCall<'a> {
    ghost from_gives = { λ slip call. called call ≡ slip_of slip.now };

    fn from(slip: &'a Slip<'a>) -> SlipCall<'a> {
        match slip {
            Order::Open(opening) => Order::Open(*opening),
            Order::Post { day, figures } => Order::Post {
                day: *day,
                figures: lent(figures),
            },
            Order::Correct { day, figures } => Order::Correct {
                day: *day,
                figures: lent(figures),
            },
            Order::Strike { day } => Order::Strike { day: *day },
            Order::Close(prices) => Order::Close(*prices),
        }
    }
}

// A day's figures, with slices of its lists.
fn lent<'a>(figures: &'a DayFigures<[u16; 48]>) -> DayFigures<&'a [u16]>
    ensures rest { result.rest ≡ figures.now.rest }
    ensures used { result.used.now ≡ figures.now.used }
    ensures surplus { result.surplus.now ≡ figures.now.surplus }
{
    DayFigures {
        rest: figures.rest,
        used: &figures.used,
        surplus: &figures.surplus,
    }
}
