mod methods;

use tariff::steps::StepTable;

/// A made-up supply of two classes, before and after noon, each with a table of its own.
#[derive(Clone, Copy)]
pub struct TwoRates {
    pub morning: StepTable,
    pub afternoon: StepTable,
}
