/// A refusal as it is told: its number, and the place that it is about, 0 where it is about none.
#[derive(Clone, Copy, PartialEq, Eq, Debug)]
pub struct Refusal {
    pub number: u8,
    pub place: u16,
}
