//! The alternatives of a goal that pass a test, which a layer keeps in their order.

ghost use Rattle.std.specs.Prelude.{◌≡◌, ◌≤◌, Bool, length, filter, Some, MatchResult};
ghost use Rattle.spaces.specs.declared.space.Alternative.{Alternative};
ghost use Rattle.std.specs.List.{slice_get};

use crate::space::{Alternative, Space};

/// A test of alternatives.
pub trait Test {
    ghost picks: { Self → Alternative → Bool };

    /// Whether the alternative passes.
    fn passes(&self, alternative: Alternative) -> bool
        ensures { result ≡ picks self.now alternative };
}

/// How many alternatives of a goal pass the test.
pub fn kept_width<S: Space, T: Test>(below: &S, test: &T, goal: u16) -> u32
    ensures { result ≡ length (filter (T.Test.picks test.now) ((S.Space.meaning below.now).lists goal)) }
{
    below
        .alternatives(goal)
        .filter(|alternative| test.passes(*alternative))
        .count() as u32
}

/// The alternative number `index` among those of a goal that pass the test.
pub fn kept_at<S: Space, T: Test>(below: &S, test: &T, goal: u16, index: u32) -> Option<Alternative>
    ensures { result ≡ slice_get (filter (T.Test.picks test.now) ((S.Space.meaning below.now).lists goal)) index }
{
    below
        .alternatives(goal)
        .filter(|alternative| test.passes(*alternative))
        .nth(index as usize)
}

/// The alternative number `index` among those of a goal that pass the test, or how many pass where there is none: in one search,
/// for a layer that would otherwise ask for both.
pub(crate) fn kept_or_width<S: Space, T: Test>(
    below: &S,
    test: &T,
    goal: u16,
    index: u32,
) -> Result<Alternative, u32>
    ensures { MatchResult result
        (λ alternative. slice_get (filter (T.Test.picks test.now) ((S.Space.meaning below.now).lists goal)) index ≡ Some alternative)
        (λ width. (width ≡ length (filter (T.Test.picks test.now) ((S.Space.meaning below.now).lists goal))) × (width ≤ index)) }
{
    let mut passed = 0;
    let mut place = 0;
    for alternative in below.alternatives(goal) {
        if test.passes(alternative) {
            if passed == index {
                // asked for again, so that of the others no more is worked out than the test reads
                return below.alternative(goal, place).ok_or(passed);
            }
            passed += 1;
        }
        place += 1;
    }
    Err(passed)
}
