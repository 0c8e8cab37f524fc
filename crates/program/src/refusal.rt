ghost use Rattle.program.specs.Refusals.{Tells};

use anyhow::anyhow;
use tariff::refusal::Refusal;

/// The error that tells a clerk of a refusal, by its number and why.
pub fn refused<F: Into<Refusal>>(fault: F, why: &str) -> anyhow::Error
    ensures { Tells (F.converts fault) (Some why.now) result }
{
    let number = fault.into().number;
    anyhow!("refused ({number}): {why}")
}

#[cfg(test)]
mod tests {
    use super::*;
    use std::test::Fail;
    use tariff::fault::PlanFault;

    #[test]
    fn number_and_reason(rt: HostRuntime) -> Result<(), Fail> {
        let text = refused(PlanFault::Percent, PlanFault::Percent.reason()).to_string(rt.alloc())?;
        assert_eq!(rt; text.as_str(), "refused (12): the percent is not 1 to 100");
        Ok(())
    }
}
