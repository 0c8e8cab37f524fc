mod methods;

ghost use Rattle.std.specs.Prelude.{◌≡◌, ◌≤◌, true, length, take, sum};
ghost use Rattle.account.specs.Standing.{all_standing};

use crate::calendar::Calendar;
use crate::day_table::DayTable;
use arrayvec::ArrayVec;
use settlement::deposit_box::DepositBox;
use settlement::prices::Prices;

/// A customer's account: the supply, the box, the calendar, the readings of its days, and the prices of the months that
/// are closed. Its type keeps that every day of a closed month is read.
#[derive(Drop)]
pub struct Account<S> {
    supply: S,
    deposit_box: DepositBox,
    calendar: Calendar,
    closed: ArrayVec<Prices, 12>,
    table: DayTable,
    ghost counted: { length closed.items ≤ calendar.months },
    ghost complete: { all_standing (take (sum (take (length closed.items) (take calendar.months calendar.lengths))) table.days) ≡ true },
}
