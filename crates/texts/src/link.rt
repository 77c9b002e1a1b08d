//! The goals of children, which a text says only at their own nodes.

ghost use Rattle.std.specs.Prelude.{◌≡◌, MatchResult};
ghost use Rattle.texts.specs.declared.error.TextError.TheVariants.{NoMemory};
ghost use Rattle.texts.specs.Links.{child, linked, others};
ghost use Rattle.texts.specs.Passing.{from_top};

use crate::error::TextError;
use numbering::node::Node;
use spaces::space::Alternative;
use std::alloc::Global;

/// Takes the next goal off the stack, where a child is wanted; else 0.
fn take_child(goals: &mut Vec<u16>, wanted: bool) -> u16
    ensures goal { result ≡ child wanted (from_top goals.old.items) }
    ensures goals { from_top goals.new.items ≡ others wanted (from_top goals.old.items) }
{
    if wanted { goals.pop().unwrap_or(0) } else { 0 }
}

/// Gives each node the goals of its children, from the last node to the first.
pub(crate) fn link(heap: Global, nodes: &mut [Node]) -> Result<(), TextError>
    ensures { MatchResult result (λ _. nodes.new ≡ linked nodes.old) (λ e. e ≡ NoMemory) }
{
    let mut goals: Vec<u16> = Vec::new(heap);
    // By index, since no proof knows what a loop over `iter_mut().rev()` has written.
    for index in (0..nodes.len()).rev() {
        let node = nodes[index];
        let arity = node.alternative.kind.arity();
        let left = take_child(&mut goals, arity >= 1);
        let right = take_child(&mut goals, arity == 2);
        let alternative = Alternative {
            left,
            right,
            ..node.alternative
        };
        nodes[index] = Node {
            alternative,
            ..node
        };
        goals.push(node.goal)?;
    }
    Ok(())
}
