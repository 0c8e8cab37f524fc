use settlement::prices::MonthPrices;
use settlement::reading::DayFigures;
use settlement::settlement::Settlement;

/// A call on an account, with what it is handed. A day stands beside its figures, as in the ledger, which keeps them by
/// their day.
#[derive(Clone, Copy)]
pub enum Call<'a> {
    Post {
        day: u16,
        figures: DayFigures<&'a [u16]>,
    },
    Correct {
        day: u16,
        figures: DayFigures<&'a [u16]>,
    },
    Strike {
        day: u16,
    },
    Draft(MonthPrices),
    Show {
        month: u8,
    },
    Close(MonthPrices),
}

/// What a call answers that is not refused.
#[derive(Clone, Copy)]
pub enum Answer {
    Done,
    /// Yen by which a correction changed the net of a closed month.
    Difference(i64),
    Settled(Settlement),
}
