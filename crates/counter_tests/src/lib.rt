// Tests of the counter.
#![tactic(auto)]

#[cfg(test)]
mod tests {
    use counter::counter::Counter;
    use settlement::prices::MonthPrices;
    use settlement::reading::DayFigures;
    use slip::slip::{Opening, Slip};
    use std::process::Abort;
    use tariff::refusal::Refusal;

    fn refusal(number: u8, place: u16) -> Result<i64, Refusal> {
        Err(Refusal { number, place })
    }

    // An order of 10 kVA at full price, from the first day of the calendar on, for a single day.
    fn order(tariff: u8, letter: u8) -> Slip<'static> {
        Slip::Open(Opening {
            tariff,
            capacity: 10,
            percent: 100,
            letter,
            first: 0,
            lengths: &[1],
        })
    }

    // A day with all its use in the first half-hour.
    fn figures(hundredths: u16) -> DayFigures<[u16; 48]> {
        let mut used = [0; 48];
        used[0] = hundredths;
        DayFigures {
            rest: false,
            used,
            surplus: [0; 48],
        }
    }

    fn strike<'a>(day: u16) -> Slip<'a> {
        Slip::Strike { day }
    }

    fn closing<'a>() -> Slip<'a> {
        Slip::Close(MonthPrices {
            fuel: 0,
            levy: 0,
            buy: 800,
        })
    }

    // Takes slips in order, each with the answer that it must have.
    fn follow(rt: &impl Abort, steps: &[(Slip, Result<i64, Refusal>)]) {
        let mut counter = Counter::new();
        for (slip, expected) in steps {
            assert_eq!(rt; counter.take(slip).map_err(Refusal::from), *expected);
        }
    }

    #[test]
    fn a_day_is_posted_closed_and_corrected(rt: HostRuntime) {
        follow(
            &rt,
            &[
                (order(1, b'S'), Ok(0)),
                (
                    Slip::Post {
                        day: 0,
                        figures: figures(100),
                    },
                    Ok(0),
                ),
                (closing(), Ok(3_679)),
                (
                    Slip::Correct {
                        day: 0,
                        figures: figures(200),
                    },
                    Ok(20),
                ),
                (strike(0), refusal(25, 0)),
            ],
        );
    }

    #[test]
    fn an_order_comes_first_and_once(rt: HostRuntime) {
        follow(
            &rt,
            &[
                (strike(0), refusal(17, 0)),
                (closing(), refusal(17, 0)),
                (order(2, b'T'), Ok(0)),
                (order(9, b'T'), refusal(18, 0)),
            ],
        );
    }

    #[test]
    fn a_refused_order_leaves_no_account(rt: HostRuntime) {
        follow(
            &rt,
            &[
                (order(4, b'X'), refusal(10, 0)),
                (order(3, b'X'), refusal(13, 0)),
                (strike(0), refusal(17, 0)),
                (order(3, b'R'), Ok(0)),
                (strike(1), refusal(20, 1)),
            ],
        );
    }
}
