ghost use Rattle.std.specs.Prelude.{◌≡◌, IfOk};
ghost use Rattle.program.specs.Numbers.{IsRead};

use anyhow::Context;
use num_traits::Bounded;
use std::error::Error;
use std::str::FromStr;

/// The number of a word of the command line, read as an `N`. One that `T` does not hold becomes the largest of `T`.
pub fn read<N: FromStr, T: TryFrom<N> + Bounded>(word: &str) -> anyhow::Result<T>
where
    N::Err: Error,
    T::Error: Drop,
    ensures { IfOk result (λ n. IsRead N.from_str_gives T.try_from_gives T.highest word.now n) }
{
    let number = word
        .parse::<N>()
        .context(format_args!("{word} is not a whole number"))?;
    Ok(T::try_from(number).unwrap_or(T::max_value()))
}

#[cfg(test)]
mod tests {
    use super::*;
    use std::test::Fail;

    #[test]
    fn numbers_of_words(rt: HostRuntime) -> Result<(), Fail> {
        assert_eq!(rt; read::<i64, u8>("12")?, 12);
        assert_eq!(rt; read::<i64, u8>("-1")?, 255);
        assert_eq!(rt; read::<i64, i16>("-32768")?, -32_768);
        assert_eq!(rt; read::<i64, i16>("-32769")?, 32_767);
        assert_eq!(rt; read::<u64, u32>("5000000000")?, 4_294_967_295);
        assert!(rt; read::<u64, u32>("-1").is_err());
        assert!(rt; read::<u64, u32>("1x").is_err());
        Ok(())
    }
}
