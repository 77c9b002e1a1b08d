/// An entry of the work buffer: a goal that the order of a plan's list calls for later, and a number.
///
/// While a plan is written it is the number of the plan wanted for the goal. While a list is ranked
/// it is the weight that the number of the goal's plan has in the number of the whole.
#[derive(Clone, Copy, PartialEq, Eq, Debug, Default)]
pub struct Due {
    pub goal: u16,
    pub number: u64,
}
