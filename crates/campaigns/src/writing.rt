//! Writing and working out the plan of a number, where the tallies stand.
//!
//! The work, plan and values buffers are parameters of each function: in a struct each contract would owe that it still holds the same ones.

ghost use Rattle.std.specs.Prelude.{◌≡◌, ◌<◌, ◌≤◌, length, take};
ghost use Rattle.numbering.specs.Listings.{listing};
ghost use Rattle.numbering.specs.Refusals.{largest, plans};
ghost use Rattle.engines.specs.Values.{value_of_list};
ghost use Rattle.campaigns.specs.Calls.{over as laid_over};

use engines::engine::Engine;
use engines::evaluation::evaluate;
use numbering::counted::Counted;
use numbering::due::Due;
use numbering::node::Node;
use numbering::writing::write_plan;
use spaces::space::Space;

/// Writes the list of the plan that has the number into the first entries of `plan`, and gives its length.
pub(crate) fn write_listing<C: Counted>(
    counted: &C,
    number: u64,
    work: &mut [Due],
    plan: &mut [Node],
) -> usize
    requires below { number < plans (C.Space.meaning counted.now) }
    requires work { largest (C.Space.meaning counted.now) ≤ length work.old }
    requires plan { largest (C.Space.meaning counted.now) ≤ length plan.old }
    ensures long { result ≡ length (listing (C.Space.meaning counted.now) number) }
    ensures fits { result ≤ largest (C.Space.meaning counted.now) }
    ensures listed { take result plan.new ≡ listing (C.Space.meaning counted.now) number }
    ensures written { plan.new ≡ laid_over (listing (C.Space.meaning counted.now) number) plan.old }
{
    write_plan(counted, number, work, plan)
}

/// The value of the plan that has the number, or its fault. Its list is left in the first entries of `plan`.
pub(crate) fn plan_value<C: Counted, E: Engine>(
    counted: &C,
    engine: &E,
    number: u64,
    work: &mut [Due],
    plan: &mut [Node],
    values: &mut [E::Output],
) -> Result<E::Output, u8>
    requires below { number < plans (C.Space.meaning counted.now) }
    requires work { largest (C.Space.meaning counted.now) ≤ length work.old }
    requires plan { largest (C.Space.meaning counted.now) ≤ length plan.old }
    requires values { largest (C.Space.meaning counted.now) ≤ length values.old }
    ensures value { result ≡ value_of_list (E.Engine.rule engine.now) (listing (C.Space.meaning counted.now) number) }
    ensures written { plan.new ≡ laid_over (listing (C.Space.meaning counted.now) number) plan.old }
{
    let len = write_listing(counted, number, work, plan);
    evaluate(engine, &plan[..len], values)
}
