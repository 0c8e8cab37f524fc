// Worked values of the tariffs, discounts, plans and fuel prices, most of them at the edge of a rule.
// They stand in a crate of their own, since a crate with tests is proved twice.
#![tactic(auto)]

#[cfg(test)]
mod tests {
    use std::test::Fail;
    use tariff::day::Day;
    use tariff::discount::Discount;
    use tariff::fault::PlanFault;
    use tariff::fuel::{Area, FuelInputs, fuel_price};
    use tariff::night::Night;
    use tariff::plan::Plan;
    use tariff::refusal::Refusal;
    use tariff::seasonal::Seasonal;
    use tariff::standard::Standard;
    use tariff::steps::{Step, StepTable};
    use tariff::supply::{Supply, Tariff, price_of};

    fn is_summer(day: u16) -> Option<bool> {
        Some(Day::new(day)?.is_summer())
    }

    fn is_weekend(day: u16) -> Option<bool> {
        Some(Day::new(day)?.is_weekend())
    }

    fn discounted<S: Supply + Drop>(supply: S, percent: u8) -> Result<Discount<S>, PlanFault> {
        Ok(Discount::new(supply, percent)?)
    }

    // What was refused, where it was.
    fn refusal<T: Drop, F: Into<Refusal>>(answer: Result<T, F>) -> Option<Refusal> {
        match answer {
            Ok(_) => None,
            Err(fault) => Some(fault.into()),
        }
    }

    fn is_table(steps: &[Step]) -> bool {
        StepTable::new(steps).is_some()
    }

    #[test]
    fn days_end_with_2099(rt: HostRuntime) -> Result<(), Fail> {
        let standard = Standard::new(10)?;
        let night = Night::new(10)?;
        let seasonal = Seasonal::new(10)?;
        // 31 December 2099
        assert_eq!(rt; standard.class(36_524, false, 0), Some(0));
        assert_eq!(rt; night.class(36_524, false, 0), Some(1));
        assert_eq!(rt; seasonal.class(36_524, false, 0), Some(3));
        assert_eq!(rt; standard.class(36_525, false, 0), None);
        assert_eq!(rt; night.class(36_525, false, 0), None);
        assert_eq!(rt; seasonal.class(36_525, false, 0), None);
        assert_eq!(rt; is_summer(36_524), Some(false));
        assert_eq!(rt; is_summer(36_525), None);
        Ok(())
    }

    #[test]
    fn summer_is_1_july_to_30_september(rt: HostRuntime) {
        // 30 June, 1 July, 30 September and 1 October
        for (before, first, last, after) in [
            // 2000, a leap year
            (181, 182, 273, 274),
            // 2001
            (546, 547, 638, 639),
            // 2096, the century's last leap year
            (35_245, 35_246, 35_337, 35_338),
            // 2099
            (36_340, 36_341, 36_432, 36_433),
        ] {
            assert_eq!(rt; is_summer(before), Some(false), "day {before}");
            assert_eq!(rt; is_summer(first), Some(true), "day {first}");
            assert_eq!(rt; is_summer(last), Some(true), "day {last}");
            assert_eq!(rt; is_summer(after), Some(false), "day {after}");
        }
    }

    #[test]
    fn weekends_are_saturdays_and_sundays(rt: HostRuntime) {
        for (day, weekend) in [
            // Saturday 1 January 2000, the Sunday and the Monday after it
            (0, true),
            (1, true),
            (2, false),
            // Friday 7 January 2000, and the Saturday after it
            (6, false),
            (7, true),
            // Friday 25 December 2099, and the Saturday after it
            (36_518, false),
            (36_519, true),
        ] {
            assert_eq!(rt; is_weekend(day), Some(weekend), "day {day}");
        }
    }

    #[test]
    fn classes_are_counted_by_kind_of_tariff(rt: HostRuntime) {
        assert_eq!(rt; (Standard::CLASSES, Standard::class_count()), (1, 1));
        assert_eq!(rt; (Night::CLASSES, Night::class_count()), (2, 2));
        assert_eq!(rt; (Seasonal::CLASSES, Seasonal::class_count()), (4, 4));
        assert_eq!(rt;
            (Discount::<Night>::CLASSES, Discount::<Night>::class_count()),
            (2, 2)
        );
    }

    #[test]
    fn standard_has_one_class_all_day(rt: HostRuntime) -> Result<(), Fail> {
        let standard = Standard::new(10)?;
        assert_eq!(rt; standard.class(0, false, 0), Some(0));
        assert_eq!(rt; standard.class(184, true, 47), Some(0));
        assert_eq!(rt; standard.class(184, true, 48), None);
        Ok(())
    }

    #[test]
    fn night_prices_begin_at_23_and_end_at_7(rt: HostRuntime) -> Result<(), Fail> {
        let night = Night::new(10)?;
        for (half_hour, class) in [
            (13, Some(1)),
            (14, Some(0)),
            (45, Some(0)),
            (46, Some(1)),
            (47, Some(1)),
            (48, None),
        ] {
            assert_eq!(rt;
                night.class(0, false, half_hour),
                class,
                "half-hour {half_hour}"
            );
        }
        Ok(())
    }

    #[test]
    fn seasonal_peak_is_13_to_16_on_summer_working_days(rt: HostRuntime) -> Result<(), Fail> {
        let seasonal = Seasonal::new(10)?;
        for (day, rest, half_hour, class) in [
            // Monday 3 July 2000
            (184, false, 25, 1),
            (184, false, 26, 0),
            (184, false, 31, 0),
            (184, false, 32, 1),
            // the same day, where its reading has the rest mark
            (184, true, 26, 1),
            // Saturday 1 July 2000
            (182, false, 26, 1),
            // Friday 30 June 2000, not yet summer
            (181, false, 26, 2),
        ] {
            assert_eq!(rt;
                seasonal.class(day, rest, half_hour),
                Some(class),
                "day {day}, half-hour {half_hour}"
            );
        }
        Ok(())
    }

    #[test]
    fn seasonal_day_time_is_8_to_22(rt: HostRuntime) -> Result<(), Fail> {
        let seasonal = Seasonal::new(10)?;
        for (day, half_hour, class) in [
            // Saturday 1 January 2000
            (0, 15, Some(3)),
            (0, 16, Some(2)),
            (0, 43, Some(2)),
            (0, 44, Some(3)),
            (0, 47, Some(3)),
            (0, 48, None),
            // Monday 3 July 2000
            (184, 15, Some(3)),
            (184, 16, Some(1)),
            (184, 43, Some(1)),
            (184, 44, Some(3)),
        ] {
            assert_eq!(rt;
                seasonal.class(day, false, half_hour),
                class,
                "day {day}, half-hour {half_hour}"
            );
        }
        Ok(())
    }

    #[test]
    fn basic_charges_by_capacity_are_halved_without_use(rt: HostRuntime) -> Result<(), Fail> {
        let standard = Standard::new(10)?;
        assert_eq!(rt; standard.basic(true), 286_000);
        assert_eq!(rt; standard.basic(false), 143_000);
        for (capacity, used, unused) in [
            (6, 132_000, 66_000),
            (7, 220_000, 110_000),
            (10, 220_000, 110_000),
            (11, 248_600, 124_300),
        ] {
            let night = Night::new(capacity)?;
            assert_eq!(rt; night.basic(true), used, "Night at {capacity} kVA");
            assert_eq!(rt; night.basic(false), unused, "Night at {capacity} kVA");
        }
        for (capacity, used, unused) in [(10, 130_240, 65_120), (11, 171_934, 85_967)] {
            let seasonal = Seasonal::new(capacity)?;
            assert_eq!(rt; seasonal.basic(true), used, "Seasonal at {capacity} kW");
            assert_eq!(rt; seasonal.basic(false), unused, "Seasonal at {capacity} kW");
        }
        Ok(())
    }

    #[test]
    fn only_night_has_a_minimum(rt: HostRuntime) -> Result<(), Fail> {
        assert_eq!(rt; Standard::new(10)?.minimum(), 0);
        assert_eq!(rt; Night::new(10)?.minimum(), 33_044);
        assert_eq!(rt; Seasonal::new(10)?.minimum(), 0);
        Ok(())
    }

    #[test]
    fn the_price_of_a_kwh_is_that_of_its_step(rt: HostRuntime) -> Result<(), Fail> {
        let standard = Standard::new(10)?;
        for (kwh, price) in [(119, 1_988), (120, 2_646), (299, 2_646), (300, 3_057)] {
            assert_eq!(rt;
                price_of(&standard, 0, kwh),
                Some(price),
                "kWh number {kwh}"
            );
        }
        assert_eq!(rt; price_of(&standard, 1, 0), None);
        Ok(())
    }

    #[test]
    fn discounts_pile_and_round_each_time(rt: HostRuntime) -> Result<(), Fail> {
        let once = discounted(Night::new(10)?, 90)?;
        // 90 percent of 3,745 is 3,370.5
        assert_eq!(rt; once.step(0, 2), Some((None, 3_371)));
        assert_eq!(rt; price_of(&once, 0, 230), Some(3_371));
        let twice = discounted(once, 90)?;
        // and 90 percent of that 3,033.9
        assert_eq!(rt; twice.step(0, 2), Some((None, 3_034)));
        assert_eq!(rt; price_of(&twice, 0, 230), Some(3_034));
        assert_eq!(rt; twice.basic(true), 220_000);
        assert_eq!(rt; twice.minimum(), 33_044);
        Ok(())
    }

    #[test]
    fn a_refused_discount_hands_its_supply_back(rt: HostRuntime) -> Result<(), Fail> {
        match Discount::new(Night::new(6)?, 101) {
            Ok(_) => Err(Fail::new("101 percent is no discount")),
            Err(refused) => {
                assert_eq!(rt;
                    Refusal::from(refused.fault),
                    Refusal {
                        number: 12,
                        place: 0
                    }
                );
                assert_eq!(rt; refused.supply.basic(true), 132_000);
                Ok(())
            }
        }
    }

    #[test]
    fn a_plan_is_refused_on_its_first_ground(rt: HostRuntime) {
        for (tariff, capacity, percent, number) in [
            (0, 10, 100, 10),
            (4, 10, 100, 10),
            (1, 0, 100, 11),
            (1, 50, 100, 11),
            (2, 0, 100, 11),
            (2, 50, 100, 11),
            (3, 0, 100, 11),
            (3, 50, 100, 11),
            (1, 10, 0, 12),
            (1, 10, 101, 12),
            (2, 10, 0, 12),
            (3, 10, 101, 12),
            // more than one ground
            (4, 0, 0, 10),
            (1, 0, 0, 11),
        ] {
            assert_eq!(rt;
                refusal(Plan::new(tariff, capacity, percent)),
                Some(Refusal { number, place: 0 }),
                "tariff {tariff}, capacity {capacity}, percent {percent}"
            );
        }
    }

    #[test]
    fn plans_are_made_up_to_the_edges(rt: HostRuntime) {
        for (tariff, capacity, percent) in [
            (1, 1, 1),
            (1, 49, 100),
            (2, 1, 1),
            (2, 49, 100),
            (3, 1, 1),
            (3, 49, 100),
        ] {
            assert_eq!(rt;
                refusal(Plan::new(tariff, capacity, percent)),
                None,
                "tariff {tariff}, capacity {capacity}, percent {percent}"
            );
        }
    }

    #[test]
    fn plans_are_the_tariffs_of_their_numbers(rt: HostRuntime) -> Result<(), Fail> {
        match Plan::new(1, 10, 100)? {
            Plan::Standard(supply) => assert_eq!(rt; supply.step(0, 0), Some((Some(120), 1_988))),
            _ => return Err(Fail::new("1 is Standard")),
        }
        match Plan::new(2, 10, 90)? {
            Plan::Night(supply) => assert_eq!(rt; supply.step(0, 2), Some((None, 3_371))),
            _ => return Err(Fail::new("2 is Night")),
        }
        match Plan::new(3, 10, 100)? {
            Plan::Seasonal(supply) => {
                assert_eq!(rt; supply.step(0, 0), Some((None, 3_853)));
                Ok(())
            },
            _ => Err(Fail::new("3 is Seasonal")),
        }
    }

    #[test]
    fn fuel_prices_of_worked_months(rt: HostRuntime) -> Result<(), Fail> {
        for (area, a, b, c, average, price) in [
            (3, 60_000, 80_000, 20_000, 43_200, 266),
            // the lowest price of each area
            (1, 0, 0, 0, 0, -1_576),
            (2, 0, 0, 0, 0, -1_024),
            (3, 0, 0, 0, 0, -447),
            // the highest, where each input is as high as it may be
            (1, 400_000, 400_000, 400_000, 418_400, 6_081),
            (2, 400_000, 400_000, 400_000, 373_700, 7_310),
            (3, 400_000, 400_000, 400_000, 434_000, 6_714),
        ] {
            let month = fuel_price(area, FuelInputs { a, b, c })?;
            assert_eq!(rt; Area::try_from(area)?, month.area);
            assert_eq!(rt; month.average, average, "area {area} at {a}, {b}, {c}");
            assert_eq!(rt; month.price, price, "area {area} at {a}, {b}, {c}");
        }
        Ok(())
    }

    #[test]
    fn fuel_averages_and_sizes_of_one_half_go_up(rt: HostRuntime) -> Result<(), Fail> {
        for (area, a, b, c, average, price) in [
            // an average at the base
            (1, 0, 53_000, 100_000, 86_100, 0),
            (2, 0, 11_000, 95_000, 45_900, 0),
            (3, 0, 1_000, 37_000, 27_100, 0),
            // sizes of 91.5, 111.5 and 16.5, above the base and below it
            (1, 0, 66_000, 100_000, 91_100, 92),
            (1, 0, 40_000, 100_000, 81_100, -92),
            (2, 0, 17_000, 100_000, 50_900, 112),
            (2, 0, 5_000, 90_000, 40_900, -112),
            (3, 0, 4_000, 37_000, 28_100, 17),
            (3, 0, 19_000, 27_000, 26_100, -17),
            // weighted averages of 21,250, 8,550 and 11,250 yen, and one of 8,549.57
            (1, 0, 28_000, 16_000, 21_300, -1_186),
            (2, 0, 0, 20_000, 8_600, -832),
            (3, 0, 24_000, 4_000, 11_300, -261),
            (2, 0, 0, 19_999, 8_500, -834),
        ] {
            let month = fuel_price(area, FuelInputs { a, b, c })?;
            assert_eq!(rt; month.average, average, "area {area} at {a}, {b}, {c}");
            assert_eq!(rt; month.price, price, "area {area} at {a}, {b}, {c}");
        }
        Ok(())
    }

    #[test]
    fn fuel_is_refused_on_its_first_ground(rt: HostRuntime) {
        for (area, a, b, c, number) in [
            (0, 0, 0, 0, 30),
            (4, 0, 0, 0, 30),
            (1, 400_001, 0, 0, 31),
            (2, 0, 400_001, 0, 31),
            (3, 0, 0, 400_001, 31),
            // both grounds
            (4, 400_001, 0, 0, 30),
        ] {
            assert_eq!(rt;
                refusal(fuel_price(area, FuelInputs { a, b, c })),
                Some(Refusal { number, place: 0 }),
                "area {area} at {a}, {b}, {c}"
            );
        }
    }

    #[test]
    fn a_table_of_steps_is_read_as_it_was_made(rt: HostRuntime) -> Result<(), Fail> {
        let Some(table) = StepTable::new(&[(Some(1), 0), (Some(99_999), 20_000), (None, 20_000)])
        else {
            return Err(Fail::new("the steps keep the rule"));
        };
        assert_eq!(rt; table.step(0), Some((Some(1), 0)));
        assert_eq!(rt; table.step(1), Some((Some(99_999), 20_000)));
        assert_eq!(rt; table.step(2), Some((None, 20_000)));
        assert_eq!(rt; table.step(3), None);
        assert!(rt; is_table(&[(Some(1), 1), (Some(2), 1), (Some(3), 1), (None, 1)]));
        Ok(())
    }

    #[test]
    fn steps_that_break_the_rule_are_no_table(rt: HostRuntime) {
        assert!(rt; !is_table(&[]), "no step");
        let five = [
            (Some(1), 1),
            (Some(2), 1),
            (Some(3), 1),
            (Some(4), 1),
            (None, 1),
        ];
        assert!(rt; !is_table(&five), "five steps");
        assert!(rt; !is_table(&[(Some(0), 1), (None, 1)]), "an end of 0");
        assert!(rt;
            !is_table(&[(Some(100_000), 1), (None, 1)]),
            "an end of 100,000"
        );
        assert!(rt;
            !is_table(&[(Some(5), 1), (Some(5), 1), (None, 1)]),
            "equal ends"
        );
        assert!(rt; !is_table(&[(None, 20_001)]), "a price of 20,001");
        assert!(rt;
            !is_table(&[(None, 1), (Some(5), 1)]),
            "a step behind the last"
        );
        assert!(rt; !is_table(&[(Some(5), 1)]), "no last step");
    }
}
