/// What was refused, with the supply handed back: a supply may be a value that cannot be dropped or made again.
#[derive(Drop)]
pub struct Refused<S, F> {
    pub supply: S,
    pub fault: F,
}
