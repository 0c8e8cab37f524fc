/// What an account is opened with beside its supply: the letter of the box, the day number of the first day, and the
/// length of each month.
#[derive(Clone, Copy)]
pub struct Terms<'a> {
    pub letter: char,
    pub first: u16,
    pub lengths: &'a [u8],
}
