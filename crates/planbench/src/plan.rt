//! The command `plan`.

use crate::failure::Failure;
use crate::pile::{Pile, Task};
use crate::room::Room;
use crate::words::{Words, number};
use spaces::space::Space;
use std::io::Write;
use texts::report::report;

/// More bytes than the text of a node takes: a letter, a tag and a goal of five digits each, `@` and three marks.
const NODE_BYTES: usize = 16;

/// More bytes than a line has besides its plan's text: a number of twenty digits, a space and the line's end.
const LINE_BYTES: usize = 22;

/// Prints the lines of the plans that have these numbers.
#[derive(Drop)]
struct Plans {
    numbers: Vec<u64>,
}

impl Task for Plans {
    fn run<S: Space + Drop>(&self, rt: &HostRuntime, space: S) -> Result<(), Failure> {
        let mut room = Room::new(rt.alloc(), &space)?;
        print_report(rt, &space, &self.numbers, &mut room)
    }
}

/// Prints the lines of the plans that have these numbers, all or none.
pub fn print_report<S: Space>(
    rt: &HostRuntime,
    space: &S,
    numbers: &[u64],
    room: &mut Room,
) -> Result<(), Failure> {
    let line = room
        .largest
        .saturating_mul(NODE_BYTES)
        .saturating_add(LINE_BYTES);
    let mut text = vec![in rt.alloc(); 0u8; numbers.len().saturating_mul(line)]?;
    let len = report(
        space,
        numbers,
        &mut room.tallies,
        &mut room.work,
        &mut room.plan,
        &mut text,
    )?;
    if len <= text.len() {
        rt.stdout().write_all(&text[0..len])?;
    }
    Ok(())
}

/// `plan SPACE NUMBER ..`
pub fn run_plan(rt: &HostRuntime, words: &mut Words) -> Result<(), Failure> {
    let pile = Pile::read(words)?;
    let words = words.rest();
    if words.is_empty() {
        return Err(Failure::Usage("plan wants the number of a plan"));
    }
    let numbers = words
        .iter()
        .map(|word| number(word))
        .try_collect(rt.alloc())?;
    pile.run(rt, Plans { numbers })
}
