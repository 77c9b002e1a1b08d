//! What a plan comes to under an engine.
//!
//! A plan's list is worked out from its last node to its first. The results that no node has taken yet
//! are a stack. So a node finds its children on top of it, left first, in one slice.

ghost use Rattle.std.specs.Prelude.{◌≡◌, ◌+◌, ◌<◌, ◌≤◌, [], length, MatchResult, Ok, Err};
ghost use Rattle.engines.specs.Stacks.{held};
ghost use Rattle.engines.specs.Values.{after, at_top, value_of_list, Valued, worked};

use crate::engine::Engine;
use crate::fault::Fault;
use crate::stack::Stack;
use numbering::node::Node;

/// The result of a node whose children lie on top of the stack. Where there are too few they misfit.
fn node_result<E: Engine>(engine: &E, node: Node, stack: &Stack<E::Output>) -> Result<E::Output, u8>
    ensures { result ≡ at_top (E.rule engine.now) node.alternative (held stack.now) }
{
    let alternative = node.alternative;
    let children = stack
        .peek(alternative.kind.arity() as usize)
        .ok_or(Fault::ChildrenMisfit)?;
    engine.node(alternative.kind, alternative.tag, children)
}

/// Works out a node: its result takes the place of its children.
fn work_node<E: Engine>(engine: &E, node: Node, stack: &mut Stack<E::Output>) -> Result<(), u8>
    requires { 0 < stack.old.top }
    ensures stacked { MatchResult result
        (λ _. after (E.rule engine.now) node.alternative (Ok (held stack.old)) ≡ Ok (held stack.new))
        (λ fault. after (E.rule engine.now) node.alternative (Ok (held stack.old)) ≡ Err fault) }
    ensures room { stack.old.top ≤ stack.new.top + 1 }
{
    let result = node_result(engine, node, stack)?;
    stack.replace(node.alternative.kind.arity() as usize, result);
    Ok(())
}

/// Works out all nodes, from the last to the first.
#[tactic(auto, using(crate::proofs::Values::worked_append, crate::proofs::Values::stops))]
fn work_out<E: Engine>(engine: &E, nodes: &[Node], stack: &mut Stack<E::Output>) -> Result<(), u8>
    requires { length nodes.now ≤ stack.old.top }
    ensures { MatchResult result
        (λ _. worked (E.rule engine.now) nodes.now (Ok (held stack.old)) ≡ Ok (held stack.new))
        (λ fault. worked (E.rule engine.now) nodes.now (Ok (held stack.old)) ≡ Err fault) }
{
    for node in nodes.iter().rev() {
        work_node(engine, *node, stack)?;
    }
    Ok(())
}

/// The value of the plan that `nodes` lists, or its first fault.
///
/// A list that is no plan's comes to its top node's result too, or to misfitting children where the
/// stack runs short. The top node's result is handed out and never stored. The values buffer may hold
/// anything afterwards.
#[tactic(auto, using(crate::proofs::Values::valued))]
pub fn evaluate<E: Engine>(
    engine: &E,
    nodes: &[Node],
    values: &mut [E::Output],
) -> Result<E::Output, u8>
    requires { length nodes.now ≤ length values.old }
    ensures listed { result ≡ value_of_list (E.rule engine.now) nodes.now }
    ensures planned { Valued (E.rule engine.now) nodes.now result }
{
    let (top, others) = nodes.split_first().ok_or(Fault::ChildrenMisfit)?;
    let mut stack = Stack::new(values);
    work_out(engine, others, &mut stack)?;
    node_result(engine, *top, &stack)
}
