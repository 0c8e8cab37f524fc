// What is asked for, and the month that it makes.
ghost use Rattle.std.specs.Prelude.{◌≡◌, map, IfOk, Some, string_bytes};
ghost use Rattle.tariff.specs.Discount.{discounted, discounted_tables};
ghost use Rattle.tariff.specs.Kinds.{kind_numbered};
ghost use Rattle.tariff.specs.Plans.{kind_of, numbered, numbered_tables, plan_meaning, plan_tables};
ghost use Rattle.settlement.specs.Prices.{prices_of};
ghost use Rattle.settlement.specs.Totals.{given_totals, month_of};
ghost use Rattle.bill.specs.Orders.{Ordered};
ghost use Rattle.bill.specs.Words.{box_named, counted};

use crate::words::lettered;
use anyhow::{Context, bail};
use program::number::read;
use program::refusal::refused;
use settlement::deposit_box::DepositBox;
use settlement::fault::MonthFault;
use settlement::prices::{MonthPrices, Prices};
use settlement::totals::Totals;
use std::alloc::Global;
use tariff::plan::Plan;

const USAGE: &str =
    "wanted are TARIFF CAPACITY PERCENT BOX FUEL LEVY BUY SURPLUS, and USED for each class of the tariff";

const BEYOND: &str =
    "refused: used energy or surplus is not 0 to 4200000 hundredths of a kWh, the most of 35 days";

// The words of the command line, as numbers. A number too large for its type, or negative where none may be, is the largest
// of its type, which the engine refuses, as it does a tariff or a box that does not exist.
#[derive(Drop)]
pub struct Order<'a> {
    pub tariff: u8,
    pub capacity: u8,
    pub percent: u8,
    pub letter: &'a str,
    pub prices: MonthPrices,
    pub surplus: u32,
    pub used: Vec<u32>,
}

// A month to settle.
#[derive(Clone, Copy)]
pub struct Month {
    pub deposit_box: DepositBox,
    pub prices: Prices,
    pub totals: Totals,
}

// Hundredths of a kWh.
fn hundredths(word: &String) -> anyhow::Result<u32>
    ensures { IfOk result (λ n. n ≡ counted 4294967295 (string_bytes word.now)) }
{
    read::<i64, u32>(word.as_str())
}

// The same of each word.
fn all_hundredths(alloc: Global, words: &[String]) -> anyhow::Result<Vec<u32>>
    ensures { IfOk result (λ v. v.items ≡ map (λ word. counted 4294967295 (string_bytes word)) words.now) }
{
    words.iter().map(hundredths).try_collect(alloc)
}

impl<'a> Order<'a> {
    pub fn read(alloc: Global, words: &'a [String]) -> anyhow::Result<Order<'a>>
        ensures { IfOk result (λ o. Ordered (map string_bytes words.now) o.tariff o.capacity o.percent o.letter.now o.prices o.surplus o.used.items) }
    {
        let [
            _,
            tariff,
            capacity,
            percent,
            letter,
            fuel,
            levy,
            buy,
            surplus,
            used @ ..,
        ] = words
        else {
            bail!(USAGE);
        };
        if used.is_empty() || used.len() > 4 {
            bail!(USAGE);
        }
        Ok(Order {
            tariff: read::<i64, u8>(tariff.as_str())?,
            capacity: read::<i64, u8>(capacity.as_str())?,
            percent: read::<i64, u8>(percent.as_str())?,
            letter: letter.as_str(),
            prices: MonthPrices {
                fuel: read::<i64, i16>(fuel.as_str())?,
                levy: read::<i64, u16>(levy.as_str())?,
                buy: read::<i64, u16>(buy.as_str())?,
            },
            surplus: read::<i64, u32>(surplus.as_str())?,
            used: all_hundredths(alloc, used)?,
        })
    }

    pub fn plan(&self) -> anyhow::Result<Plan>
        ensures meaning { IfOk result (λ p. (plan_meaning p ≡ discounted self.now.percent (numbered self.now.tariff self.now.capacity)) × (plan_tables p ≡ discounted_tables self.now.percent (numbered_tables self.now.tariff))) }
        ensures kind { IfOk result (λ p. kind_numbered self.now.tariff ≡ Some (kind_of p)) }
    {
        Plan::new(self.tariff, self.capacity, self.percent).map_err(|fault| refused(
            fault,
            fault.reason(),
        ))
    }

    pub fn month(&self) -> anyhow::Result<Month>
        ensures { IfOk result (λ m. (box_named self.now.letter.now ≡ Some m.deposit_box) × (prices_of m.prices ≡ self.now.prices) × (given_totals self.now.used.items self.now.surplus ≡ Some (month_of m.totals))) }
    {
        let told = |fault: MonthFault| refused(fault, fault.reason());
        let deposit_box = lettered(self.letter).map_err(told)?;
        let prices = Prices::try_from(self.prices).map_err(told)?;
        let totals = Totals::new(&self.used, self.surplus).context(BEYOND)?;
        Ok(Month {
            deposit_box,
            prices,
            totals,
        })
    }
}
