//! The text of a plan, as `H0@2(S2@1,I1@0)`: letter, tag, `@`, goal, and the children in parentheses.

ghost use Rattle.std.specs.Prelude.{◌≡◌, ◌*◌, ◌≤◌, length};
ghost use Rattle.texts.specs.Layout.{own_size};
ghost use Rattle.texts.specs.Listed.{text as text_of};
ghost use Rattle.texts.specs.Texts.{PlanSpelled, Spelled};

use crate::decimal::digits;
use crate::writer::Writer;
use numbering::node::Node;
use numbering::refusal::Refusal;

/// How many bytes of the text are a node's own.
#[tactic(auto, using(crate::proofs::Numerals::size_small, crate::proofs::Turns::own_at, crate::proofs::Turns::arity_most))]
fn node_length(node: Node) -> usize
    ensures same { result ≡ own_size node }
    ensures few { result ≤ 15 }
{
    let label = 2 + digits(node.alternative.tag as u64) + digits(node.goal as u64);
    match node.alternative.kind.arity() {
        0 => label,
        1 => label + 2,
        _ => label + 3,
    }
}

/// How long the text of a list is: in 128 bits, which no list's text outgrows.
#[tactic(auto, using(crate::proofs::Forests::length_text, crate::proofs::Turns::size_more, crate::proofs::Turns::size_all))]
pub(crate) fn text_length(nodes: &[Node]) -> u128
    ensures same { result ≡ length (text_of nodes.now) }
    ensures few { result ≤ 15 * length nodes.now }
{
    let mut sum: u128 = 0;
    for node in nodes {
        sum += node_length(*node) as u128;
    }
    sum
}

/// Writes the text of a plan into `text` from byte 0 on and gives its length.
///
/// Refused where the buffer is too short for it, and the buffer is then as it was. A list that is no
/// plan's has a text too: those of the plans that stand in it, one after the other.
pub fn plan_text(nodes: &[Node], text: &mut [u8]) -> Result<usize, Refusal>
    ensures list { Spelled (text_of nodes.now) result text.old text.new }
    ensures plan { PlanSpelled nodes.now result text.old text.new }
{
    let len = text_length(nodes);
    if len > text.len() as u128 {
        return Err(Refusal::TextShort);
    }
    let mut writer = Writer::new(text);
    writer.text(nodes, len as usize);
    Ok(len as usize)
}
