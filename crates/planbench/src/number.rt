//! The command `number`.

use crate::failure::Failure;
use crate::node_lines::read_node_lines;
use crate::pile::{Pile, Task};
use crate::room::Room;
use crate::words::Words;
use numbering::node::Node;
use numbering::ranking::rank;
use spaces::space::Space;
use texts::read::read_plan;

/// Prints the number of a plan.
#[derive(Drop)]
struct Number {
    nodes: Vec<Node>,
}

impl Task for Number {
    fn run<S: Space + Drop>(&self, rt: &HostRuntime, space: S) -> Result<(), Failure> {
        let mut room = Room::new(rt.alloc(), &space)?;
        let number = rank(&space, &self.nodes, &mut room.tallies, &mut room.work)?;
        println!(rt; "{number}")?;
        Ok(())
    }
}

/// `number SPACE TEXT` or `number SPACE --nodes FILE`
pub fn run_number(rt: &HostRuntime, words: &mut Words) -> Result<(), Failure> {
    let pile = Pile::read(words)?;
    let nodes = if words.skip("--nodes") {
        read_node_lines(rt, words.wanted("--nodes wants a file")?)?
    } else {
        read_plan(
            rt.alloc(),
            words.wanted("number wants the text of a plan")?.as_bytes(),
        )?
    };
    words.end()?;
    pile.run(rt, Number { nodes })
}
