ghost use Rattle.std.specs.Prelude.{◌≡◌, IfOk};
ghost use Rattle.std.specs.Process.{exit_status};
ghost use Rattle.program.specs.Endings.{status_of};

use std::process::ExitCode;

/// The exit code of what a program came to. What went wrong is told on standard error, behind the program's name.
pub fn exit_code(
    rt: &impl Eprint,
    name: &str,
    outcome: anyhow::Result<()>,
) -> anyhow::Result<ExitCode>
    ensures { IfOk result (λ code. exit_status code ≡ status_of outcome) }
{
    match outcome {
        Ok(()) => Ok(ExitCode::SUCCESS),
        Err(wrong) => {
            eprintln!(rt; "{name}: {wrong}")?;
            Ok(ExitCode::FAILURE)
        }
    }
}

#[cfg(test)]
mod tests {
    use super::*;
    use anyhow::anyhow;
    use std::test::Fail;

    #[test]
    fn success_and_failure(rt: HostRuntime) -> Result<(), Fail> {
        assert_eq!(rt; exit_code(&rt, "program", Ok(()))?, ExitCode::SUCCESS);
        assert_eq!(rt;
            exit_code(&rt, "program", Err(anyhow!("wrong")))?,
            ExitCode::FAILURE
        );
        Ok(())
    }
}
