/// What a run answers.
#[derive(Clone, Copy, PartialEq, Eq, Debug)]
pub enum Outcome {
    /// The engine calls the baseline's result and the plan's the same.
    Agreed,
    /// It does not.
    Differing,
    /// The plan has a fault, which has this number.
    Faulted(u8),
}
