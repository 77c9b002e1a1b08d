//! A plan's text read back into the plan's list.

ghost use Rattle.std.specs.Prelude.{MatchResult};
ghost use Rattle.texts.specs.Reads.{NodesRead, NotRead, ReadAs};

use crate::cursor::Cursor;
use crate::error::TextError;
use crate::link::link;
use crate::punctuation::{Next, pass_marks};
use numbering::node::Node;
use std::alloc::Global;

/// The nodes of a text, with their children's goals 0.
fn read_nodes(heap: Global, text: &[u8]) -> Result<Vec<Node>, TextError>
    ensures { MatchResult result (λ v. NodesRead text.now v.items) (λ e. NotRead text.now e) }
{
    let mut cursor = Cursor::new(text);
    let mut nodes: Vec<Node> = Vec::new(heap);
    let mut marks: Vec<u8> = Vec::new(heap);
    loop {
        let start = cursor.at;
        let node = cursor.label().ok_or(TextError::NoNode(start))?;
        nodes.push(node)?;
        match pass_marks(&mut cursor, node.alternative.kind.arity(), &mut marks)? {
            Next::Node => {}
            Next::End => break,
        }
    }
    if cursor.at < text.len() {
        return Err(TextError::BytesFollow(cursor.at));
    }
    Ok(nodes)
}

/// Reads the text of a plan back into the plan's list.
///
/// The children's goals are those of their own nodes. Every text of a plan of a lawful space is
/// read as that plan's list, unless memory runs out, and what is read always has the text. The error
/// names the byte at which a node or a mark is due and does not stand, or the text should end.
pub fn read_plan(heap: Global, text: &[u8]) -> Result<Vec<Node>, TextError>
    ensures { MatchResult result (λ v. ReadAs text.now v.items) (λ e. NotRead text.now e) }
{
    let mut nodes = read_nodes(heap, text)?;
    link(heap, nodes.as_mut_slice())?;
    Ok(nodes)
}
