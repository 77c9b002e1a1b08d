//! The plan of a number, written where the tallies are known to stand.

ghost use Rattle.std.specs.Prelude.{◌≡◌, ◌/◌, ◌%◌, ◌<◌, ◌≤◌, length};
ghost use Rattle.numbering.specs.Refusals.{largest, plans};
ghost use Rattle.numbering.specs.Standing.{Written};

use crate::counted::Counted;
use crate::due::Due;
use crate::node::Node;
use crate::stack::Stack;
use crate::standing::left_count;
use spaces::space::Space;

/// The numbers of the left and the right child, from what their parent's number leaves.
fn shares(rest: u64, left: u64) -> (u64, u64)
    requires { 0 < left }
    ensures { result ≡ (rest % left, rest / left) }
{
    // without a right child nothing is left to divide
    if rest < left {
        (rest, 0)
    } else {
        (rest % left, rest / left)
    }
}

/// Writes the list of the plan that has the number into `plan` and gives its length.
///
/// This is the work under `unrank`, for callers who know that the tallies stand.
pub fn write_plan<C: Counted>(
    counted: &C,
    number: u64,
    work: &mut [Due],
    plan: &mut [Node],
) -> usize
    requires below { number < plans (C.meaning counted.now) }
    requires work { largest (C.meaning counted.now) ≤ length work.old }
    requires plan { largest (C.meaning counted.now) ≤ length plan.old }
    ensures { Written (C.meaning counted.now) number result plan.old plan.new }
{
    let tallies = counted.tallies();
    let mut stack = Stack::new(work);
    stack.push(Due {
        goal: counted.root(),
        number,
    });
    for (len, place) in plan.iter_mut().enumerate() {
        let Some(due) = stack.pop() else {
            return len;
        };
        let (alternative, rest) = counted.pick(due.goal, due.number);
        *place = Node {
            goal: due.goal,
            alternative,
        };
        let (left, right) = shares(rest, left_count(tallies, alternative));
        stack.push_children(alternative, left, right);
    }
    plan.len()
}
