/// What a goal comes to: how many plans it has, cut off at 10^18 + 1, and how many nodes the largest has, cut off at 1,025.
#[derive(Clone, Copy, PartialEq, Eq, Debug, Default)]
pub struct Tally {
    pub count: u64,
    pub size: u16,
}
