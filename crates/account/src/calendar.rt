mod methods;

ghost use Rattle.std.specs.Prelude.{◌≡◌, ◌+◌, ◌≤◌, true, length, take, sum};
ghost use Rattle.account.specs.Calendars.{lengths_right};

/// The months of an account: the day number of its first day, and the length of each month. Its type keeps that there
/// are 1 to 12 months of 1 to 35 days, and that the last day is by 31 December 2099.
#[derive(Clone, Copy)]
pub struct Calendar {
    first: u16,
    // A calendar is `Copy`, and an `ArrayVec` is not: so its months are an array and their number.
    months: u8,
    lengths: [u8; 12],
    ghost some: { 1 ≤ months },
    ghost few: { months ≤ 12 },
    ghost right: { lengths_right (take months lengths) ≡ true },
    ghost ends: { first + sum (take months lengths) ≤ 36525 },
    ghost wide: { length lengths ≡ 12 },
}
