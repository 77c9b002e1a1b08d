//! One record of a file, and the rules on it.

ghost use Rattle.std.specs.Prelude.{◌≡◌, slice_index, MatchResult};
ghost use Rattle.spaces.specs.Kinds.{arity};
ghost use Rattle.memos.specs.Reading.{passed, read_alone};
ghost use Rattle.memos.specs.Rules.{bad_child, bad_children, bad_goal, bad_kind, bad_tag, end_from, field_rules, first, record_of, shape_rules, written_at};

use crate::cursor::Cursor;
use crate::fields::{Fields, Record};
use crate::refusal::OpenRefusal;
use spaces::kind::Kind;
use spaces::space::Alternative;

/// What the fields say. `low` is one above the goal of the record before, or 0 in the first record.
fn record_of(low: u16, fields: Fields) -> Record
    ensures { result ≡ record_of low fields }
{
    // A number that no kind has is refused, whatever stands for it here.
    let kind = Kind::try_from(fields.kind.unwrap_or(0)).unwrap_or(Kind::Scan);
    Record {
        goal: fields.goal.unwrap_or(low.saturating_sub(1)),
        alternative: Alternative {
            kind,
            tag: fields.tag.unwrap_or(0),
            left: fields.left.unwrap_or(0),
            right: fields.right.unwrap_or(0),
        },
    }
}

fn bad_goal(goals: u16, low: u16, goal: Option<u16>) -> bool
    ensures { result ≡ bad_goal goals low goal }
{
    goal.map_or(low == 0, |goal| goals <= goal || goal < low)
}

fn bad_kind(kind: Option<u8>) -> bool
    ensures { result ≡ bad_kind kind }
{
    kind.is_some_and(|kind| kind == 0 || 6 < kind)
}

fn bad_children(kind: Kind, left: bool, right: bool) -> bool
    ensures { result ≡ bad_children (arity kind) left right }
{
    match kind.arity() {
        0 => left || right,
        1 => !left || right,
        _ => !left || !right,
    }
}

fn bad_tag(tag: Option<u16>) -> bool
    ensures { result ≡ bad_tag tag }
{
    tag == Some(0)
}

fn bad_child(goal: u16, child: Option<u16>) -> bool
    ensures { result ≡ bad_child goal child }
{
    child.is_some_and(|child| goal <= child)
}

/// The record that the fields at a place say, or the first rule that they break.
fn checked(goals: u16, low: u16, at: usize, fields: Fields) -> Result<Record, OpenRefusal>
    ensures { result ≡ passed (first (field_rules goals low at fields)) (Ok (record_of low fields)) }
{
    let record = record_of(low, fields);
    if bad_goal(goals, low, fields.goal) {
        return Err(OpenRefusal::GoalOrder(at));
    }
    if bad_kind(fields.kind) {
        return Err(OpenRefusal::NoKind(at));
    }
    if bad_children(
        record.alternative.kind,
        fields.left.is_some(),
        fields.right.is_some(),
    ) {
        return Err(OpenRefusal::ChildBits(at));
    }
    if bad_tag(fields.tag) {
        return Err(OpenRefusal::ZeroTag(at));
    }
    if bad_child(record.goal, fields.left) || bad_child(record.goal, fields.right) {
        return Err(OpenRefusal::ChildOrder(at));
    }
    Ok(record)
}

/// Passes a record, and gives its fields if its bit map is one and the file has them all.
fn read_fields(cursor: &mut Cursor) -> Result<Fields, OpenRefusal>
    ensures file { cursor.new.file.now ≡ cursor.old.file.now }
    ensures fields { MatchResult result
        (λ f. (first (shape_rules cursor.old.file.now cursor.old.at) ≡ None) × (f ≡ written_at cursor.old.file.now cursor.old.at) × (cursor.new.at ≡ end_from (slice_index cursor.old.file.now cursor.old.at) cursor.old.at))
        (λ e. first (shape_rules cursor.old.file.now cursor.old.at) ≡ Some e) }
{
    let at = cursor.at;
    let map = cursor.byte().ok_or(OpenRefusal::RecordEnds(at))?;
    if map > 31 {
        return Err(OpenRefusal::RecordBits(at));
    }
    cursor.fields(map).ok_or(OpenRefusal::RecordEnds(at))
}

/// Passes the next record, by itself, or gives the first rule that it breaks.
pub fn read_alone(cursor: &mut Cursor, goals: u16, low: u16) -> Result<Record, OpenRefusal>
    ensures file { cursor.new.file.now ≡ cursor.old.file.now }
    ensures alone { MatchResult result
        (λ r. read_alone cursor.old.file.now goals low cursor.old.at ≡ Ok (r, cursor.new.at))
        (λ e. read_alone cursor.old.file.now goals low cursor.old.at ≡ Err e) }
{
    let at = cursor.at;
    let fields = read_fields(cursor)?;
    checked(goals, low, at, fields)
}
