/// What a campaign has counted since it was made.
#[derive(Clone, Copy, PartialEq, Eq, Debug, Default)]
pub struct Counts {
    /// Accepted draws.
    pub drawn: u64,
    /// Runs that answered that the plan agrees with the baseline.
    pub agreed: u64,
    /// Runs that answered that it differs.
    pub differing: u64,
    /// Runs that answered that the plan has a fault.
    pub faulted: u64,
    /// Skips.
    pub skipped: u64,
}
