//! The checks that come before the work on plans. Past them the tallies stand.

ghost use Rattle.std.specs.Prelude.{◌≡◌, ◌≤◌, length, OnOk};
ghost use Rattle.numbering.specs.Ranks.{rank_checks, write_checks};
ghost use Rattle.numbering.specs.Refusals.{after_tally, answered, first_of, largest, plans};
ghost use Rattle.numbering.specs.Standing.{Standing};

use crate::counting::count;
use crate::refusal::Refusal;
use crate::tally::Tally;
use spaces::space::Space;

/// Has the tallies stand for ranking with a work buffer of `work` entries, and gives what `count` does.
pub fn ready_to_rank<S: Space>(
    space: &S,
    tallies: &mut [Tally],
    work: usize,
) -> Result<(u64, u16), Refusal>
    ensures answer { result ≡ answered (first_of (rank_checks (S.meaning space.now) (length tallies.old) work)) (plans (S.meaning space.now), largest (S.meaning space.now)) }
    ensures tallies { tallies.new ≡ after_tally (S.meaning space.now) tallies.old }
    ensures standing { OnOk result (Standing (S.meaning space.now) tallies.new × (largest (S.meaning space.now) ≤ work)) }
{
    let (plans, size) = count(space, tallies)?;
    if work < usize::from(size) {
        return Err(Refusal::WorkShort);
    }
    Ok((plans, size))
}

/// Has the tallies stand for writing plans into a buffer of `plan` entries, and gives what `count` does.
pub fn ready_to_write<S: Space>(
    space: &S,
    tallies: &mut [Tally],
    work: usize,
    plan: usize,
) -> Result<(u64, u16), Refusal>
    ensures answer { result ≡ answered (first_of (write_checks (S.meaning space.now) (length tallies.old) work plan)) (plans (S.meaning space.now), largest (S.meaning space.now)) }
    ensures tallies { tallies.new ≡ after_tally (S.meaning space.now) tallies.old }
    ensures standing { OnOk result (Standing (S.meaning space.now) tallies.new × (largest (S.meaning space.now) ≤ work) × (largest (S.meaning space.now) ≤ plan)) }
{
    let (plans, size) = ready_to_rank(space, tallies, work)?;
    if plan < usize::from(size) {
        return Err(Refusal::PlanShort);
    }
    Ok((plans, size))
}
