//! The search in running sums.

ghost use Rattle.std.specs.Prelude.{◌<◌, ◌≤◌, length, slice_index};
ghost use Rattle.std.specs.List.Sorted.{IsNonDecreasing};
ghost use Rattle.prepared.specs.Sums.{Sought};

/// The place of the last sum that the number is not below.
pub fn seek(sums: &[u64], number: u64) -> usize
    requires sorted { IsNonDecreasing sums.now }
    requires some { 0 < length sums.now }
    requires low { slice_index sums.now 0 ≤ number }
    ensures { Sought sums.now number result }
{
    let past = sums.partition_point(|sum| *sum <= number);
    past - 1
}
