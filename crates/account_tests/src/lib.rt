// Tests of accounts.
#![tactic(auto)]

#[cfg(test)]
mod tests {
    use account::account::Account;
    use account::call::{Answer, Call};
    use account::fault::AccountFault;
    use account::replay::{ReplayFault, replay};
    use account::terms::Terms;
    use settlement::prices::MonthPrices;
    use settlement::reading::DayFigures;
    use settlement::settlement::Settlement;
    use std::ops::Range;
    use std::process::Abort;
    use std::test::Fail;
    use tariff::discount::Discount;
    use tariff::refusal::Refusal;
    use tariff::seasonal::Seasonal;
    use tariff::standard::Standard;
    use tariff::supply::Supply;

    // What is looked at of an answer: a settlement, which has no equality, by its net.
    #[derive(Clone, Copy, PartialEq, Eq, Debug)]
    enum Seen {
        Done,
        Difference(i64),
        Net(i64),
    }

    impl From<Answer> for Seen {
        fn from(answer: Answer) -> Seen {
            match answer {
                Answer::Done => Seen::Done,
                Answer::Difference(yen) => Seen::Difference(yen),
                Answer::Settled(settlement) => Seen::Net(settlement.net),
            }
        }
    }

    fn seen_in(res: Result<Answer, AccountFault>) -> Result<Seen, Refusal> {
        Ok(Seen::from(res?))
    }

    fn net(res: Result<Settlement, AccountFault>) -> Result<i64, Refusal> {
        Ok(res?.net)
    }

    fn refused<T>(number: u8, place: u16) -> Result<T, Refusal> {
        Err(Refusal { number, place })
    }

    // Makes calls in order, each with the answer that it must have.
    fn follow<S: Supply>(
        rt: &impl Abort,
        account: &mut Account<S>,
        steps: &[(Call, Result<Seen, Refusal>)],
    ) -> Result<(), Fail> {
        for (call, expected) in steps {
            assert_eq!(rt; seen_in(account.apply(call)), *expected);
        }
        Ok(())
    }

    fn terms(letter: char, first: u16, lengths: &[u8]) -> Terms<'_> {
        Terms {
            letter,
            first,
            lengths,
        }
    }

    fn opening(letter: char, first: u16, lengths: &[u8]) -> Result<Result<(), Refusal>, Fail> {
        Ok(
            match Account::open(Standard::new(10)?, terms(letter, first, lengths)) {
                Ok(_) => Ok(()),
                Err(refused) => Err(refused.fault.into()),
            },
        )
    }

    // An account over a supply, with the box S.
    fn opened<S: Supply + Drop>(supply: S, first: u16, lengths: &[u8]) -> Result<Account<S>, Fail> {
        Account::open(supply, terms('S', first, lengths)).map_err(|_| Fail::new("not opened"))
    }

    // Hundredths in the first half-hour alone.
    fn figures(hundredths: u16) -> [u16; 48] {
        let mut list = [0; 48];
        list[0] = hundredths;
        list
    }

    fn worked<'a>(used: &'a [u16], surplus: &'a [u16]) -> DayFigures<&'a [u16]> {
        DayFigures {
            rest: false,
            used,
            surplus,
        }
    }

    fn post<'a>(day: u16, used: &'a [u16], surplus: &'a [u16]) -> Call<'a> {
        Call::Post {
            day,
            figures: worked(used, surplus),
        }
    }

    fn correct<'a>(day: u16, rest: bool, used: &'a [u16], surplus: &'a [u16]) -> Call<'a> {
        Call::Correct {
            day,
            figures: DayFigures {
                rest,
                used,
                surplus,
            },
        }
    }

    fn draft<'a>(fuel: i16, levy: u16, buy: u16) -> Call<'a> {
        Call::Draft(MonthPrices { fuel, levy, buy })
    }

    fn close<'a>(fuel: i16, levy: u16, buy: u16) -> Call<'a> {
        Call::Close(MonthPrices { fuel, levy, buy })
    }

    // No fuel price and no levy, and surplus bought at 800 sen.
    const PLAIN: MonthPrices = MonthPrices {
        fuel: 0,
        levy: 0,
        buy: 800,
    };

    #[test]
    fn openings_at_the_limits(rt: HostRuntime) -> Result<(), Fail> {
        assert_eq!(rt; opening('S', 0, &[35])?, Ok(()));
        assert_eq!(rt; opening('S', 0, &[36])?, refused(15, 0));
        assert_eq!(rt; opening('S', 0, &[0])?, refused(15, 0));
        assert_eq!(rt; opening('S', 0, &[1; 12])?, Ok(()));
        assert_eq!(rt; opening('S', 0, &[1; 13])?, refused(14, 0));
        assert_eq!(rt; opening('S', 0, &[])?, refused(14, 0));
        assert_eq!(rt; opening('S', 36_490, &[35])?, Ok(()));
        assert_eq!(rt; opening('S', 36_491, &[35])?, refused(16, 0));
        assert_eq!(rt; opening('S', 36_524, &[1])?, Ok(()));
        assert_eq!(rt; opening('S', 36_525, &[1])?, refused(16, 0));
        assert_eq!(rt; opening('s', 0, &[1])?, refused(13, 0));
        Ok(())
    }

    #[test]
    fn openings_refused_on_the_first_ground(rt: HostRuntime) -> Result<(), Fail> {
        assert_eq!(rt; opening('X', 65_535, &[0; 13])?, refused(13, 0));
        assert_eq!(rt; opening('M', 65_535, &[0; 13])?, refused(14, 0));
        assert_eq!(rt; opening('L', 65_535, &[35, 36])?, refused(15, 0));
        assert_eq!(rt; opening('T', 65_535, &[35])?, refused(16, 0));
        assert_eq!(rt; opening('R', 0, &[35])?, Ok(()));
        Ok(())
    }

    #[test]
    fn postings(rt: HostRuntime) -> Result<(), Fail> {
        let mut account = opened(Standard::new(10)?, 0, &[2, 1])?;
        let (high, most, none) = ([2_501; 48], [2_500; 48], [0; 48]);
        follow(
            &rt,
            &mut account,
            &[
                (post(3, &high[0..47], &none), refused(20, 3)),
                (post(2, &high[0..47], &none), refused(21, 0)),
                (post(2, &high, &none[0..47]), refused(21, 0)),
                (post(2, &none, &high), refused(22, 2)),
                (post(2, &most, &most), Ok(Seen::Done)),
                (post(2, &high, &none), refused(22, 2)),
                (post(2, &none, &none), refused(23, 2)),
                (post(0, &none, &none), Ok(Seen::Done)),
            ],
        )
    }

    #[test]
    fn corrections_and_strikes(rt: HostRuntime) -> Result<(), Fail> {
        let mut account = opened(Standard::new(10)?, 0, &[2, 1])?;
        let (high, most, none) = ([2_501; 48], [2_500; 48], [0; 48]);
        follow(
            &rt,
            &mut account,
            &[
                (correct(3, false, &high[0..47], &none), refused(20, 3)),
                (correct(1, false, &none, &high[0..47]), refused(21, 0)),
                (correct(1, false, &none, &high), refused(22, 1)),
                (correct(1, false, &most, &most), refused(24, 1)),
                (Call::Strike { day: 3 }, refused(20, 3)),
                (Call::Strike { day: 1 }, refused(24, 1)),
                (post(1, &none, &none), Ok(Seen::Done)),
                (correct(1, true, &most, &most), Ok(Seen::Difference(0))),
                (Call::Strike { day: 1 }, Ok(Seen::Done)),
                (Call::Strike { day: 1 }, refused(24, 1)),
                (post(1, &none, &none), Ok(Seen::Done)),
            ],
        )
    }

    fn close_first(rt: &impl Abort, account: &mut Account<Standard>) -> Result<(), Fail> {
        let (one, none) = (figures(100), [0; 48]);
        follow(
            rt,
            account,
            &[
                // The later month is posted first, and the open month still misses its day.
                (post(1, &one, &none), Ok(Seen::Done)),
                (draft(10_001, 0, 0), refused(27, 0)),
                (draft(-10_001, 0, 0), refused(27, 0)),
                (close(0, 10_001, 0), refused(27, 0)),
                (close(0, 0, 10_001), refused(27, 0)),
                (draft(0, 0, 800), refused(28, 0)),
                (close(0, 0, 800), refused(28, 0)),
                (Call::Show { month: 0 }, refused(29, 0)),
                (post(0, &none, &none), Ok(Seen::Done)),
                // Nothing used: 143,000 sen, and the box's 800 yen.
                (draft(0, 0, 800), Ok(Seen::Net(2_230))),
                (Call::Show { month: 0 }, refused(29, 0)),
                (close(0, 0, 800), Ok(Seen::Net(2_230))),
            ],
        )
    }

    fn close_second(rt: &impl Abort, account: &mut Account<Standard>) -> Result<(), Fail> {
        let none = [0; 48];
        follow(
            rt,
            account,
            &[
                (post(0, &none, &none), refused(23, 0)),
                (Call::Show { month: 0 }, Ok(Seen::Net(2_230))),
                (Call::Show { month: 1 }, refused(29, 0)),
                // 1 kWh: 286,000 + 1,988 − 50 sen, 3 yen of levy, 800 yen.
                (close(-50, 398, 850), Ok(Seen::Net(3_682))),
                (draft(10_001, 0, 0), refused(26, 0)),
                (close(0, 0, 0), refused(26, 0)),
                (Call::Show { month: 2 }, refused(29, 0)),
                // Each month at its own prices.
                (Call::Show { month: 0 }, Ok(Seen::Net(2_230))),
                (Call::Show { month: 1 }, Ok(Seen::Net(3_682))),
            ],
        )
    }

    #[test]
    fn months_close_in_order(rt: HostRuntime) -> Result<(), Fail> {
        let mut account = opened(Standard::new(10)?, 0, &[1, 1])?;
        close_first(&rt, &mut account)?;
        close_second(&rt, &mut account)
    }

    // Nets in yen of a day with a used and a surplus figure in half-hour 0, fuel and levy 0, surplus bought at 800 sen:
    // 1 kWh used: 286,000 + 1,988 sen are 2,879 yen, and 800 are 3,679. 2 kWh: 286,000 + 3,976 are 2,899, and 800 are 3,699.
    // 25 kWh: 286,000 + 49,700 are 3,357, and 800 are 4,157. 2 used and 3 surplus: 3,699 less (2 × 1,988 + 800) / 100, 47.
    fn corrected<S: Supply>(rt: &impl Abort, account: &mut Account<S>) -> Result<(), Fail> {
        let (one, two, three, most, none) = (
            figures(100),
            figures(200),
            figures(300),
            figures(2_500),
            [0; 48],
        );
        follow(
            rt,
            account,
            &[
                (post(0, &one, &none), Ok(Seen::Done)),
                (close(0, 0, 800), Ok(Seen::Net(3_679))),
                (correct(0, false, &two, &none), Ok(Seen::Difference(20))),
                (Call::Show { month: 0 }, Ok(Seen::Net(3_699))),
                (correct(0, false, &most, &none), Ok(Seen::Difference(458))),
                // 3,679 + 20 + 458
                (Call::Show { month: 0 }, Ok(Seen::Net(4_157))),
                (correct(0, false, &two, &three), Ok(Seen::Difference(-505))),
                (Call::Show { month: 0 }, Ok(Seen::Net(3_652))),
                (Call::Strike { day: 0 }, refused(25, 0)),
                (Call::Show { month: 0 }, Ok(Seen::Net(3_652))),
            ],
        )
    }

    #[test]
    fn differences_add_up(rt: HostRuntime) -> Result<(), Fail> {
        let mut account = opened(Standard::new(10)?, 0, &[1])?;
        corrected(&rt, &mut account)
    }

    // The second month at fuel −50, levy 398 and buying 850, in used and surplus kWh:
    // 2 and 0: 286,000 + 3,976 − 100 sen are 2,898 yen, with 7 of levy and 800 are 3,705.
    // 3 and 3: 286,000 + 5,964 − 150 are 2,918, with 11 and 800, less (5,964 − 150) / 100, 58, are 3,671.
    // 2 and 3: 2,898 + 7 + 800, less (3,976 − 100 + 850) / 100, 47, are 3,658.
    fn correct_months(rt: &impl Abort, account: &mut Account<Standard>) -> Result<(), Fail> {
        let (one, two, three, none) = (figures(100), figures(200), figures(300), [0; 48]);
        follow(
            rt,
            account,
            &[
                (post(0, &one, &none), Ok(Seen::Done)),
                (post(1, &one, &none), Ok(Seen::Done)),
                (post(2, &one, &none), Ok(Seen::Done)),
                (close(0, 0, 800), Ok(Seen::Net(3_679))),
                (close(-50, 398, 850), Ok(Seen::Net(3_705))),
                (correct(2, false, &two, &three), Ok(Seen::Difference(-34))),
                (correct(0, false, &two, &none), Ok(Seen::Difference(20))),
                (correct(1, false, &none, &none), Ok(Seen::Difference(-13))),
            ],
        )
    }

    fn show_months(rt: &impl Abort, account: &mut Account<Standard>) -> Result<(), Fail> {
        let (one, two, none) = (figures(100), figures(200), [0; 48]);
        follow(
            rt,
            account,
            &[
                (post(3, &one, &none), Ok(Seen::Done)),
                (correct(3, false, &two, &none), Ok(Seen::Difference(0))),
                (Call::Show { month: 0 }, Ok(Seen::Net(3_699))),
                (Call::Show { month: 1 }, Ok(Seen::Net(3_658))),
                (Call::Strike { day: 2 }, refused(25, 2)),
                (Call::Strike { day: 3 }, Ok(Seen::Done)),
            ],
        )
    }

    #[test]
    fn each_month_at_its_own_prices(rt: HostRuntime) -> Result<(), Fail> {
        let mut account = opened(Standard::new(10)?, 0, &[1, 2, 1])?;
        correct_months(&rt, &mut account)?;
        show_months(&rt, &mut account)
    }

    #[test]
    fn a_hundred_percent_change_nothing(rt: HostRuntime) -> Result<(), Fail> {
        let supply = Discount::new(Standard::new(10)?, 100).map_err(|_| Fail::new(
            "not discounted",
        ))?;
        let mut account = opened(supply, 0, &[1])?;
        corrected(&rt, &mut account)
    }

    // 10 kWh in each half-hour from 13:00 to 16:00.
    fn afternoon() -> [u16; 48] {
        let mut list = [0; 48];
        list[26..32].fill(1_000);
        list
    }

    // Monday 3 July 2000, 60 kWh from 13:00 to 16:00. At the peak 130,240 + 60 × 3,853 sen are 3,614 yen, and 800 are 4,414;
    // on a rest day 130,240 + 60 × 3,011 are 3,109, and 800 are 3,909.
    #[test]
    fn the_rest_mark_moves_the_peak(rt: HostRuntime) -> Result<(), Fail> {
        let (used, none) = (afternoon(), [0; 48]);
        let mut account = opened(Seasonal::new(10)?, 184, &[1])?;
        follow(
            &rt,
            &mut account,
            &[
                (post(0, &used, &none), Ok(Seen::Done)),
                (close(0, 0, 800), Ok(Seen::Net(4_414))),
                (correct(0, true, &used, &none), Ok(Seen::Difference(-505))),
                (Call::Show { month: 0 }, Ok(Seen::Net(3_909))),
                (correct(0, false, &used, &none), Ok(Seen::Difference(505))),
            ],
        )
    }

    fn post_each(rt: &impl Abort, account: &mut Account<Standard>, days: Range<u16>) {
        let (one, none) = (figures(100), [0; 48]);
        for day in days {
            assert_eq!(rt; account.post(day, worked(&one, &none)), Ok(()));
        }
    }

    #[test]
    fn twelve_long_months(rt: HostRuntime) -> Result<(), Fail> {
        let mut account = opened(Standard::new(10)?, 36_105, &[35; 12])?;
        post_each(&rt, &mut account, 385..420);
        assert_eq!(rt;
            account.strike(420).map_err(Refusal::from),
            refused(20, 420)
        );
        assert_eq!(rt; net(account.draft(PLAIN)), refused(28, 0));
        post_each(&rt, &mut account, 0..34);
        assert_eq!(rt; net(account.draft(PLAIN)), refused(28, 34));
        post_each(&rt, &mut account, 34..35);
        // 35 kWh: 286,000 + 69,580 sen, and 800 yen.
        assert_eq!(rt; net(account.draft(PLAIN)), Ok(4_355));
        assert_eq!(rt; net(account.close(PLAIN)), Ok(4_355));
        assert_eq!(rt; net(account.draft(PLAIN)), refused(28, 35));
        Ok(())
    }

    // The direct calls answer as the same calls do through `apply`.
    #[test]
    fn direct_calls(rt: HostRuntime) -> Result<(), Fail> {
        let mut account = opened(Standard::new(10)?, 0, &[1])?;
        let (one, two, none) = (figures(100), figures(200), [0; 48]);
        assert_eq!(rt; account.post(0, worked(&two, &none)), Ok(()));
        assert_eq!(rt; account.strike(0), Ok(()));
        assert_eq!(rt;
            account
                .correct(0, worked(&one, &none))
                .map_err(Refusal::from),
            refused(24, 0)
        );
        assert_eq!(rt; account.post(0, worked(&one, &none)), Ok(()));
        assert_eq!(rt; net(account.show(0)), refused(29, 0));
        assert_eq!(rt; net(account.draft(PLAIN)), Ok(3_679));
        assert_eq!(rt; net(account.close(PLAIN)), Ok(3_679));
        assert_eq!(rt; account.correct(0, worked(&two, &none)), Ok(20));
        assert_eq!(rt; net(account.show(0)), Ok(3_699));
        assert_eq!(rt; account.strike(0).map_err(Refusal::from), refused(25, 0));
        Ok(())
    }

    #[test]
    fn calls_through_apply(rt: HostRuntime) -> Result<(), Fail> {
        let mut account = opened(Standard::new(10)?, 0, &[1])?;
        let (one, two, none) = (figures(100), figures(200), [0; 48]);
        follow(
            &rt,
            &mut account,
            &[
                (post(0, &two, &none), Ok(Seen::Done)),
                (Call::Strike { day: 0 }, Ok(Seen::Done)),
                (correct(0, false, &one, &none), refused(24, 0)),
                (post(0, &one, &none), Ok(Seen::Done)),
                (Call::Show { month: 0 }, refused(29, 0)),
                (draft(0, 0, 800), Ok(Seen::Net(3_679))),
                (close(0, 0, 800), Ok(Seen::Net(3_679))),
                (correct(0, false, &two, &none), Ok(Seen::Difference(20))),
                (Call::Show { month: 0 }, Ok(Seen::Net(3_699))),
                (Call::Strike { day: 0 }, refused(25, 0)),
            ],
        )
    }

    #[test]
    fn a_list_of_calls(rt: HostRuntime) -> Result<(), Fail> {
        let (one, two, none) = (figures(100), figures(200), [0; 48]);
        let calls = [
            post(0, &one, &none),
            post(0, &two, &none),
            close(0, 0, 800),
            correct(0, false, &two, &none),
        ];
        let expected = [
            Ok(Seen::Done),
            refused(23, 0),
            Ok(Seen::Net(3_679)),
            Ok(Seen::Difference(20)),
        ];
        let replayed = replay(rt.alloc(), Standard::new(10)?, terms('S', 0, &[1]), &calls)?;
        assert_eq!(rt; replayed.answers.len(), 4);
        for (answer, expected) in replayed.answers.iter().zip(&expected) {
            assert_eq!(rt; seen_in(*answer), *expected);
        }
        assert_eq!(rt; net(replayed.account.show(0)), Ok(3_699));
        Ok(())
    }

    #[test]
    fn a_refused_list(rt: HostRuntime) -> Result<(), Fail> {
        let none = [0; 48];
        match replay(
            rt.alloc(),
            Standard::new(10)?,
            terms('S', 0, &[36]),
            &[post(0, &none, &none)],
        ) {
            Err(ReplayFault::Refused(fault)) => {
                assert_eq!(rt;
                    Refusal::from(fault),
                    Refusal {
                        number: 15,
                        place: 0
                    }
                );
                Ok(())
            },
            _ => Err(Fail::new("not refused")),
        }
    }
}
