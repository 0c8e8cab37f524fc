// Worked months at the edges of the rules. They stand in a crate of their own, since a crate with tests is proved twice.
#![tactic(auto)]

pub mod two_rates;

#[cfg(test)]
mod tests {
    use crate::two_rates::TwoRates;
    use settlement::deposit_box::DepositBox;
    use settlement::fault::MonthFault;
    use settlement::prices::{MonthPrices, Prices};
    use settlement::reading::{DayFigures, Reading, ReadingFault};
    use settlement::settlement::{Settlement, settle};
    use settlement::totals::{Totals, gather};
    use std::test::Fail;
    use tariff::night::Night;
    use tariff::seasonal::Seasonal;
    use tariff::standard::Standard;
    use tariff::steps::StepTable;

    fn prices(fuel: i16, levy: u16, buy: u16) -> Result<Prices, MonthFault> {
        Prices::try_from(MonthPrices { fuel, levy, buy })
    }

    fn reading(rest: bool, used: &[u16], surplus: &[u16]) -> Result<Reading, ReadingFault> {
        Reading::try_from(DayFigures {
            rest,
            used,
            surplus,
        })
    }

    // A month of Standard at 10 kVA.
    fn standard(letter: char, prices: Prices, used: u32, surplus: u32) -> Option<Settlement> {
        let supply = Standard::new(10).ok()?;
        let chosen = DepositBox::try_from(letter).ok()?;
        settle(&supply, chosen, prices, &Totals::new(&[used], surplus)?)
    }

    // A month of Night at 6 kVA, with box T and no prices.
    fn night(by_day: u32, by_night: u32, surplus: u32) -> Option<Settlement> {
        let supply = Night::new(6).ok()?;
        let free = prices(0, 0, 0).ok()?;
        settle(
            &supply,
            DepositBox::T,
            free,
            &Totals::new(&[by_day, by_night], surplus)?,
        )
    }

    fn net(month: Option<Settlement>) -> Option<i64> {
        month.map(|month| month.net)
    }

    fn credit(month: Option<Settlement>) -> Option<i64> {
        month.map(|month| month.credit)
    }

    fn kwh(month: Option<Settlement>) -> Option<[u32; 4]> {
        month.map(|month| month.kwh)
    }

    // The shares of the first four rows.
    fn shares(month: Option<Settlement>) -> Option<[u32; 4]> {
        let chosen = month?.chosen;
        Some([
            chosen.share(0)?,
            chosen.share(1)?,
            chosen.share(2)?,
            chosen.share(3)?,
        ])
    }

    // Used hundredths by class of days on Seasonal.
    fn by_class(first: u16, days: &[Option<Reading>]) -> Option<[u32; 4]> {
        let supply = Seasonal::new(10).ok()?;
        gather(&supply, first, days).map(|totals| totals.by_class)
    }

    // 7 kWh used from 13:00 to 13:30.
    fn noon(rest: bool) -> Option<Reading> {
        let mut used = [0; 48];
        used[26] = 700;
        reading(rest, &used, &[0; 48]).ok()
    }

    // A month of Night at 1 kVA, box S, at the lowest fuel price.
    fn cheap_night(used: &[u32]) -> Option<Settlement> {
        let supply = Night::new(1).ok()?;
        let cheap = prices(-10_000, 0, 0).ok()?;
        settle(&supply, DepositBox::S, cheap, &Totals::new(used, 0)?)
    }

    #[test]
    fn use_rounds_half_up_and_none_halves_the_basic_charge(rt: HostRuntime) -> Result<(), Fail> {
        let free = prices(0, 0, 0)?;
        // 2,860 and 800 yen, without and with one kWh of 19.88; without any hundredth 1,430 and 800
        assert_eq!(rt; net(standard('S', free, 49, 0)), Some(3_660));
        assert_eq!(rt; net(standard('S', free, 50, 0)), Some(3_679));
        assert_eq!(rt; net(standard('S', free, 0, 0)), Some(2_230));
        Ok(())
    }

    #[test]
    fn the_fee_goes_by_surplus_in_kwh(rt: HostRuntime) -> Result<(), Fail> {
        let free = prices(0, 0, 0)?;
        assert_eq!(rt; net(standard('T', free, 100, 49)), Some(5_369));
        assert_eq!(rt; net(standard('T', free, 100, 50)), Some(7_840));
        assert_eq!(rt; net(standard('R', free, 500, 0)), Some(4_209));
        Ok(())
    }

    #[test]
    fn deposited_is_the_smallest_of_surplus_use_and_limit(rt: HostRuntime) -> Result<(), Fail> {
        let bought = prices(0, 0, 800)?;
        // box S holds 50 of 100 kWh; box L takes all, but only 100 kWh were used; box M holds 150 of 200
        assert_eq!(rt;
            net(standard('S', prices(0, 345, 800)?, 40_000, 10_000)),
            Some(13_317)
        );
        assert_eq!(rt; net(standard('L', bought, 10_000, 30_000)), Some(6_260));
        assert_eq!(rt; net(standard('M', bought, 100_000, 20_000)), Some(28_772));
        Ok(())
    }

    #[test]
    fn a_negative_credit_is_cut_towards_zero(rt: HostRuntime) -> Result<(), Fail> {
        // three kWh at 19.88 less 20.38 yen: −1.50 yen
        let month = standard('S', prices(-2_038, 0, 0)?, 300, 300);
        assert_eq!(rt; credit(month), Some(-1));
        assert_eq!(rt; net(month), Some(3_659));
        Ok(())
    }

    #[test]
    fn the_last_class_takes_the_rest(rt: HostRuntime) {
        assert_eq!(rt; kwh(night(90, 70, 0)), Some([0, 2, 0, 0]));
        assert_eq!(rt; net(night(90, 70, 0)), Some(3_834));
    }

    #[test]
    fn behind_the_last_class_no_kwh_stand(rt: HostRuntime) -> Result<(), Fail> {
        // totals made by hand may have figures there
        let totals = Totals {
            days: 35,
            classes: 1,
            used: 100,
            by_class: [100, 5_000, 700, 0],
            surplus: 0,
        };
        let supply = Standard::new(10)?;
        let month = settle(&supply, DepositBox::S, prices(0, 0, 0)?, &totals);
        assert_eq!(rt; kwh(month), Some([1, 0, 0, 0]));
        Ok(())
    }

    #[test]
    fn the_dearest_step_fills_first(rt: HostRuntime) {
        assert_eq!(rt;
            shares(night(25_000, 15_000, 20_000)),
            Some([40, 140, 20, 0])
        );
        assert_eq!(rt; net(night(25_000, 15_000, 20_000)), Some(9_389));
    }

    // 30 kWh in the morning, 10 at 1 yen and 20 at 3, and 12 in the afternoon, 5 at 3 yen and 7 at 5; box L.
    fn two_rates(surplus: u32) -> Option<Settlement> {
        let supply = TwoRates {
            morning: StepTable::new(&[(Some(10), 100), (None, 300)])?,
            afternoon: StepTable::new(&[(Some(5), 300), (None, 500)])?,
        };
        let free = prices(0, 0, 0).ok()?;
        settle(
            &supply,
            DepositBox::L,
            free,
            &Totals::new(&[3_000, 1_200], surplus)?,
        )
    }

    #[test]
    fn a_dear_step_of_a_later_class_does_not_wait(rt: HostRuntime) {
        // 7 kWh at 5 yen first, then those at 3 yen: the lower class before the higher
        assert_eq!(rt; shares(two_rates(700)), Some([0, 0, 0, 7]));
        assert_eq!(rt; shares(two_rates(2_000)), Some([0, 13, 0, 7]));
        assert_eq!(rt; shares(two_rates(3_000)), Some([0, 20, 3, 7]));
        assert_eq!(rt; shares(two_rates(9_999)), Some([10, 20, 5, 7]));
    }

    #[test]
    fn the_minimum_stands_before_the_cut_to_yen(rt: HostRuntime) {
        // Night's minimum is 33,044 sen, and 800 yen are the fee
        assert_eq!(rt; net(cheap_night(&[10_000, 0])), Some(1_130));
    }

    #[test]
    fn totals_fit_the_tariff_and_a_month(rt: HostRuntime) {
        assert_eq!(rt; net(cheap_night(&[10_000])), None);
        assert!(rt; Totals::new(&[4_200_000], 4_200_000).is_some());
        assert!(rt; Totals::new(&[4_200_001], 0).is_none());
        assert!(rt; Totals::new(&[0], 4_200_001).is_none());
        assert!(rt; Totals::new(&[], 0).is_none());
    }

    #[test]
    fn the_rest_mark_moves_the_peak(rt: HostRuntime) {
        // Monday 3 July 2000 and the day after
        let working = noon(false);
        assert_eq!(rt; by_class(184, &[working, working]), Some([1_400, 0, 0, 0]));
        assert_eq!(rt;
            by_class(184, &[working, noon(true)]),
            Some([700, 700, 0, 0])
        );
        assert_eq!(rt; by_class(184, &[working, None]), None);
    }

    #[test]
    fn a_month_has_35_days_of_the_calendar(rt: HostRuntime) {
        let working = noon(false);
        assert!(rt; by_class(36_524, &[working]).is_some());
        assert!(rt; by_class(36_525, &[working]).is_none());
        assert!(rt; by_class(0, &[working; 35]).is_some());
        assert!(rt; by_class(0, &[working; 36]).is_none());
    }

    #[test]
    fn readings_boxes_and_prices_have_limits(rt: HostRuntime) {
        assert!(rt; reading(false, &[2_500; 48], &[2_500; 48]).is_ok());
        assert!(rt; reading(false, &[2_501; 48], &[0; 48]).is_err());
        assert!(rt; reading(false, &[0; 47], &[0; 48]).is_err());
        assert!(rt; reading(false, &[0; 48], &[0; 49]).is_err());
        assert!(rt; DepositBox::try_from('X').is_err());
        assert!(rt; prices(-10_000, 10_000, 10_000).is_ok());
        assert!(rt; prices(10_001, 0, 0).is_err());
        assert!(rt; prices(-10_001, 0, 0).is_err());
        assert!(rt; prices(0, 10_001, 0).is_err());
        assert!(rt; prices(0, 0, 10_001).is_err());
    }
}
