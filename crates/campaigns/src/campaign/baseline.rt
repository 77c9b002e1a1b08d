//! The baseline's result, worked out once and kept for the campaign.

ghost use Rattle.std.specs.Prelude.{◌≡◌, None};

/// What the baseline of a campaign came to: its result or its fault, once a run has worked it out.
#[derive(Drop)]
pub struct Baseline<V> {
    pub(crate) kept: Option<Result<V, u8>>,
}

impl<V: Drop> Baseline<V> {
    /// A baseline that is not worked out yet.
    pub fn new() -> Baseline<V>
        ensures { result.kept ≡ None }
    {
        Baseline { kept: None }
    }
}
