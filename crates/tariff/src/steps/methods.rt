ghost use Rattle.std.specs.Prelude.{◌≡◌, true, false, MatchOption};
ghost use Rattle.std.specs.List.{slice_get};
ghost use Rattle.tariff.specs.Steps.{rising, right_table};
ghost use Rattle.tariff.specs.Tables.{steps_of};

use super::{Step, StepTable};

impl StepTable {
    /// The table of these steps, or none where they break the rule.
    pub fn new(steps: &[Step]) -> Option<StepTable>
        ensures { MatchOption result (right_table steps.now ≡ false) (λ t. (steps_of t ≡ steps.now) × (right_table steps.now ≡ true)) }
    {
        if steps.len() > 4 || !rises(steps) {
            return None;
        }
        let mut table = [(None, 0); 4];
        table[..steps.len()].copy_from_slice(steps);
        Some(StepTable {
            count: steps.len() as u8,
            steps: table,
        })
    }

    // The table of steps that keep the rule.
    pub(crate) fn of(steps: &[Step]) -> StepTable
        requires { right_table steps.now ≡ true }
        ensures { steps_of result ≡ steps.now }
    {
        StepTable::new(steps).unwrap()
    }

    // The steps in order.
    fn as_slice(&self) -> &[Step]
        ensures { result.now ≡ steps_of self.now }
    {
        &self.steps[..usize::from(self.count)]
    }

    /// The step of number i, counted from 0.
    pub fn step(&self, i: u8) -> Option<Step>
        ensures { result ≡ slice_get (steps_of self.now) i }
    {
        self.as_slice().get(usize::from(i)).copied()
    }
}

// Whether the steps keep the rule of a table, however many they are.
fn rises(steps: &[Step]) -> bool
    ensures { result ≡ rising 0 steps.now }
{
    let mut from = 0;
    for (i, &(end, price)) in steps.iter().enumerate() {
        if price > 20_000 {
            return false;
        }
        match end {
            Some(end) => {
                if end <= from || end > 99_999 {
                    return false;
                }
                from = end;
            }
            None => return i + 1 == steps.len(),
        }
    }
    false
}
