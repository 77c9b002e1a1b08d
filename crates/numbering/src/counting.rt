//! How many plans a space holds, and how large the largest is.

ghost use Rattle.std.specs.Prelude.{◌≡◌, ◌≤◌, length, IfOk};
ghost use Rattle.std.specs.List.{list_any};
ghost use Rattle.numbering.specs.Census.{Census};
ghost use Rattle.numbering.specs.Plans.{left_due, right_due};
ghost use Rattle.numbering.specs.Refusals.{after_tally, answered, count_checks, first_of, largest, plans};
ghost use Rattle.numbering.specs.Tallies.{cut, filled, joined as joined_exactly, look, many, of_alternative, of_list, plus};

use crate::dues::{left_due, right_due};
use crate::refusal::Refusal;
use crate::tally::Tally;
use spaces::space::{Alternative, Space};

/// The most plans of a goal that the bench numbers.
pub const MOST_PLANS: u64 = 1_000_000_000_000_000_000;

/// The most nodes of a plan that the bench writes.
pub const MOST_NODES: u16 = 1024;

/// The tally of what is due at a child's place, where a goal past the end of `tallies` has no plans.
pub(crate) fn due_tally(tallies: &[Tally], due: Option<u16>) -> Tally
    ensures { result ≡ look tallies.now due }
{
    match due {
        Some(goal) => tallies.get(usize::from(goal)).copied().unwrap_or_default(),
        None => Tally { count: 1, size: 0 },
    }
}

/// The tally of an alternative, from those of its children.
fn joined(left: Tally, right: Tally) -> Tally
    ensures { result ≡ cut (joined_exactly left right) }
{
    let count = left.count.saturating_mul(right.count);
    if count == 0 {
        return Tally::default();
    }
    let size = left.size.saturating_add(right.size).saturating_add(1);
    Tally {
        count: count.min(MOST_PLANS + 1),
        size: size.min(MOST_NODES + 1),
    }
}

/// The tally of two parts of a goal's list together.
fn sum(a: Tally, b: Tally) -> Tally
    ensures { result ≡ cut (plus a b) }
{
    Tally {
        count: a.count.saturating_add(b.count).min(MOST_PLANS + 1),
        size: a.size.max(b.size).min(MOST_NODES + 1),
    }
}

/// The tally of an alternative, where `tallies` has those of the goals below.
fn alternative_tally(tallies: &[Tally], alternative: Alternative) -> Tally
    ensures { result ≡ cut (of_alternative (look tallies.now) alternative) }
{
    joined(
        due_tally(tallies, left_due(alternative)),
        due_tally(tallies, right_due(alternative)),
    )
}

/// The tally of a goal, where `tallies` has those of the goals below it.
fn goal_tally<S: Space>(space: &S, goal: u16, tallies: &[Tally]) -> Tally
    ensures { result ≡ cut (of_list (look tallies.now) ((S.meaning space.now).lists goal)) }
{
    space
        .alternatives(goal)
        .fold(Tally::default(), |total, alternative| {
            sum(total, alternative_tally(tallies, alternative))
        })
}

/// Writes the tally of each goal.
fn fill<S: Space>(space: &S, tallies: &mut [Tally])
    requires { (S.meaning space.now).goals ≤ length tallies.old }
    ensures { tallies.new ≡ filled (S.meaning space.now) (S.meaning space.now).goals tallies.old }
{
    for goal in 0..space.goals() {
        tallies[usize::from(goal)] = goal_tally(space, goal, tallies);
    }
}

/// Whether some goal has more plans than the bench numbers.
fn too_many(tallies: &[Tally]) -> bool
    ensures { result ≡ list_any many tallies.now }
{
    tallies.iter().any(|tally| tally.count > MOST_PLANS)
}

/// How many complete plans the space holds, and how many nodes the largest has.
///
/// Writes the tallies of all goals into the first entries of `tallies`, unless it is refused for
/// want of goals or of room there.
pub fn count<S: Space>(space: &S, tallies: &mut [Tally]) -> Result<(u64, u16), Refusal>
    ensures answer { result ≡ answered (first_of (count_checks (S.meaning space.now) (length tallies.old))) (plans (S.meaning space.now), largest (S.meaning space.now)) }
    ensures tallies { tallies.new ≡ after_tally (S.meaning space.now) tallies.old }
    ensures census { IfOk result (λ p. Census (S.meaning space.now) p.0 p.1) }
{
    let goals = usize::from(space.goals());
    if goals == 0 {
        return Err(Refusal::NoGoals);
    }
    if tallies.len() < goals {
        return Err(Refusal::TalliesShort);
    }
    fill(space, tallies);
    let filled = &tallies[..goals];
    if too_many(filled) {
        return Err(Refusal::TooManyPlans);
    }
    let root = filled[usize::from(space.root())];
    if root.size > MOST_NODES {
        return Err(Refusal::PlansTooLarge);
    }
    Ok((root.count, root.size))
}
