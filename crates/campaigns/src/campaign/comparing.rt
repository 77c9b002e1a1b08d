//! The drawn plan beside the baseline.

ghost use Rattle.std.specs.Prelude.{◌≡◌, ◌<◌, ◌≤◌, length, Some, Ok};
ghost use Rattle.numbering.specs.Listings.{listing};
ghost use Rattle.numbering.specs.Refusals.{largest, plans};
ghost use Rattle.engines.specs.Values.{value_of_list};
ghost use Rattle.campaigns.specs.Baselines.{beside, expected as expected_of};
ghost use Rattle.campaigns.specs.Calls.{both_over, over as laid_over};
ghost use Rattle.campaigns.specs.Verdicts.{told};

use crate::campaign::baseline::Baseline;
use crate::outcome::Outcome;
use crate::writing::{plan_value, write_listing};
use engines::engine::Engine;
use numbering::counted::Counted;
use numbering::due::Due;
use numbering::node::Node;
use spaces::space::Space;

/// What a plan's value tells beside the baseline's result.
pub(crate) fn tell<E: Engine>(
    engine: &E,
    expected: &E::Output,
    value: Result<E::Output, u8>,
) -> Outcome
    ensures { Ok result ≡ told (E.Engine.alike engine.now) (Ok expected.now) value }
{
    match value {
        Ok(value) if engine.same(expected, &value) => Outcome::Agreed,
        Ok(_) => Outcome::Differing,
        Err(fault) => Outcome::Faulted(fault),
    }
}

/// What the plan that has the number comes to: what is kept of it, if anything is. Its list is left in the first entries of `plan`.
fn work_out<C: Counted, E: Engine>(
    kept: Option<Result<E::Output, u8>>,
    counted: &C,
    engine: &E,
    number: u64,
    work: &mut [Due],
    plan: &mut [Node],
    values: &mut [E::Output],
) -> Result<E::Output, u8>
    requires below { number < plans (C.Space.meaning counted.now) }
    requires work { largest (C.Space.meaning counted.now) ≤ length work.old }
    requires plan { largest (C.Space.meaning counted.now) ≤ length plan.old }
    requires values { largest (C.Space.meaning counted.now) ≤ length values.old }
    ensures value { result ≡ expected_of kept (value_of_list (E.Engine.rule engine.now) (listing (C.Space.meaning counted.now) number)) }
    ensures written { plan.new ≡ laid_over (listing (C.Space.meaning counted.now) number) plan.old }
{
    match kept {
        Some(kept) => {
            write_listing(counted, number, work, plan);
            kept
        }
        None => plan_value(counted, engine, number, work, plan, values),
    }
}

/// What the plan that has the number tells beside the baseline, or the baseline's fault. What the baseline comes to is kept.
pub(crate) fn compare<C: Counted, E: Engine>(
    counted: &C,
    engine: &E,
    baseline: &mut Baseline<E::Output>,
    base: u64,
    number: u64,
    work: &mut [Due],
    plan: &mut [Node],
    values: &mut [E::Output],
) -> Result<Outcome, u8>
    requires base { base < plans (C.Space.meaning counted.now) }
    requires below { number < plans (C.Space.meaning counted.now) }
    requires work { largest (C.Space.meaning counted.now) ≤ length work.old }
    requires plan { largest (C.Space.meaning counted.now) ≤ length plan.old }
    requires values { largest (C.Space.meaning counted.now) ≤ length values.old }
    ensures told { result ≡ beside baseline.old.kept (E.Engine.rule engine.now) (E.Engine.alike engine.now) (C.Space.meaning counted.now) base number }
    ensures kept { baseline.new.kept ≡ Some (expected_of baseline.old.kept (value_of_list (E.Engine.rule engine.now) (listing (C.Space.meaning counted.now) base))) }
    ensures written { plan.new ≡ both_over result (listing (C.Space.meaning counted.now) base) (listing (C.Space.meaning counted.now) number) plan.old }
{
    let kept = work_out(
        baseline.kept.take(),
        counted,
        engine,
        base,
        work,
        plan,
        values,
    );
    let told = match &kept {
        Ok(expected) => {
            let value = plan_value(counted, engine, number, work, plan, values);
            Ok(tell(engine, expected, value))
        }
        Err(fault) => Err(*fault),
    };
    baseline.kept = Some(kept);
    told
}
