//! The number of a list, read where the tallies are known to stand.

ghost use Rattle.std.specs.Prelude.{◌≤◌, length};
ghost use Rattle.numbering.specs.Ranks.{Judged};
ghost use Rattle.numbering.specs.Refusals.{largest};

use crate::counted::Counted;
use crate::due::Due;
use crate::node::Node;
use crate::refusal::Refusal;
use crate::stack::Stack;
use crate::standing::left_count;
use spaces::space::Space;

/// The number of the plan that the list is, or where and why it is none.
///
/// This is the work under `rank`, for callers who know that the tallies stand.
pub fn number_of<C: Counted>(counted: &C, nodes: &[Node], work: &mut [Due]) -> Result<u64, Refusal>
    requires { largest (C.meaning counted.now) ≤ length work.old }
    ensures { Judged (C.meaning counted.now) nodes.now result }
{
    let tallies = counted.tallies();
    let mut stack = Stack::new(work);
    let mut next = Some(Due {
        goal: counted.root(),
        number: 1,
    });
    let mut number: u64 = 0;
    for (place, node) in nodes.iter().enumerate() {
        let Some(due) = next else {
            return Err(Refusal::NodesFollow(place));
        };
        if node.goal != due.goal {
            return Err(Refusal::OtherGoal(place));
        }
        let Some(before) = counted.counts_before(*node) else {
            return Err(Refusal::NoLiveAlternative(place));
        };
        number += due.number * before;
        let left = left_count(tallies, node.alternative);
        stack.push_children(node.alternative, due.number, due.number * left);
        next = stack.pop();
    }
    match next {
        Some(_) => Err(Refusal::ListEnds(nodes.len())),
        None => Ok(number),
    }
}
