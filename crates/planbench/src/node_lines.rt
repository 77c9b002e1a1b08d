//! A plan as a file with a line for each node: goal, letter, tag, left and right goal.

use crate::failure::Failure;
use crate::input::read_text;
use crate::words::lone_kind;
use numbering::node::Node;
use spaces::space::Alternative;

/// The node of a line, if it has the five fields and no more.
fn node(line: &str) -> Option<Node> {
    let mut fields = line.split_whitespace();
    let goal = fields.next()?.parse().ok()?;
    let kind = lone_kind(fields.next()?)?;
    let tag = fields.next()?.parse().ok()?;
    let left = fields.next()?.parse().ok()?;
    let right = fields.next()?.parse().ok()?;
    if fields.next().is_some() {
        return None;
    }
    Some(Node {
        goal,
        alternative: Alternative {
            kind,
            tag,
            left,
            right,
        },
    })
}

/// The nodes of a file, or of standard input where its name is `-`.
pub fn read_node_lines(rt: &HostRuntime, name: &str) -> Result<Vec<Node>, Failure> {
    let text = read_text(rt, name)?;
    let mut nodes = Vec::new(rt.alloc());
    for (number, line) in text.lines().enumerate() {
        let Some(node) = node(line) else {
            return Err(Failure::Line(number));
        };
        nodes.push(node)?;
    }
    Ok(nodes)
}
