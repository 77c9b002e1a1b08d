//! Small lawful tables by a generator.

use crate::table::Table;
use spaces::kind::Kind;
use spaces::space::Alternative;
use std::alloc::{AllocError, Global};

/// A linear congruential generator.
#[derive(Drop)]
pub struct Dice(pub u64);

impl Dice {
    /// A number below `sides`, or 0.
    pub fn roll(&mut self, sides: u16) -> u16 {
        self.0 = self
            .0
            .wrapping_mul(6364136223846793005)
            .wrapping_add(1442695040888963407);
        if sides == 0 {
            return 0;
        }
        ((self.0 >> 33) % sides as u64) as u16
    }
}

fn any_alternative(dice: &mut Dice, goal: u16) -> Alternative {
    let tag = dice.roll(3);
    let leaf = goal == 0 || dice.roll(4) == 0;
    if leaf {
        let kind = if dice.roll(2) == 0 {
            Kind::Scan
        } else {
            Kind::IndexScan
        };
        return Alternative {
            kind,
            tag,
            left: 0,
            right: 0,
        };
    }
    let left = dice.roll(goal);
    let (kind, right) = match dice.roll(5) {
        0 => (Kind::HashJoin, dice.roll(goal)),
        1 => (Kind::MergeJoin, dice.roll(goal)),
        2 => (Kind::NestedLoops, dice.roll(goal)),
        3 => (Kind::Filter, 0),
        _ => (Kind::Sort, 0),
    };
    Alternative {
        kind,
        tag,
        left,
        right,
    }
}

/// A table of 1 to 5 goals with up to 3 alternatives each, no two of a goal equal.
pub fn any_table(heap: Global, dice: &mut Dice) -> Result<Table, AllocError> {
    let goals = dice.roll(5).saturating_add(1);
    let mut lists = Vec::new(heap);
    for goal in 0..goals {
        let mut list: Vec<Alternative> = Vec::new(heap);
        for _ in 0..dice.roll(4) {
            let alternative = any_alternative(dice, goal);
            if !list.contains(&alternative) {
                list.push(alternative)?;
            }
        }
        lists.push(list)?;
    }
    Ok(Table {
        root: dice.roll(goals),
        lists,
    })
}
