//! The parentheses and commas between the nodes of a text.

ghost use Rattle.std.specs.Prelude.{◌≡◌, ◌≤◌, MatchResult};
ghost use Rattle.texts.specs.Passing.{NotPassed, Passed, from_top, node_follows};

use crate::cursor::Cursor;
use crate::error::TextError;

/// What follows the marks between nodes.
#[derive(Clone, Copy, PartialEq, Eq, Debug)]
pub(crate) enum Next {
    Node,
    End,
}

/// Passes the marks that follow a leaf, up to the first comma due, and takes them off those due.
fn close_marks(cursor: &mut Cursor, marks: &mut Vec<u8>) -> Result<Next, TextError>
    ensures text { cursor.new.text.now ≡ cursor.old.text.now }
    ensures marks { MatchResult result
        (λ next. Passed 0 (from_top marks.old.items) (from_top marks.new.items) cursor.old.text.now cursor.old.at cursor.new.at (node_follows next))
        (λ e. NotPassed 0 (from_top marks.old.items) cursor.old.text.now cursor.old.at e) }
{
    while let Some(mark) = marks.pop() {
        if !cursor.eat(mark) {
            return Err(TextError::NoMark(cursor.at));
        }
        if mark == b',' {
            return Ok(Next::Node);
        }
    }
    Ok(Next::End)
}

/// Passes the marks that follow the own part of a node with `arity` children.
///
/// `marks` are the closing marks and commas due, the next one last.
pub(crate) fn pass_marks(
    cursor: &mut Cursor,
    arity: u8,
    marks: &mut Vec<u8>,
) -> Result<Next, TextError>
    requires { arity ≤ 2 }
    ensures text { cursor.new.text.now ≡ cursor.old.text.now }
    ensures marks { MatchResult result
        (λ next. Passed arity (from_top marks.old.items) (from_top marks.new.items) cursor.old.text.now cursor.old.at cursor.new.at (node_follows next))
        (λ e. NotPassed arity (from_top marks.old.items) cursor.old.text.now cursor.old.at e) }
{
    if arity == 0 {
        return close_marks(cursor, marks);
    }
    if !cursor.eat(b'(') {
        return Err(TextError::NoMark(cursor.at));
    }
    marks.push(b')')?;
    if arity == 2 {
        marks.push(b',')?;
    }
    Ok(Next::Node)
}
