//! A source space with layers over it, as the command line names it.

use crate::failure::Failure;
use crate::input::read_bytes;
use crate::words::{Words, kinds, lone_kind, number};
use memos::memo::Memo;
use spaces::bushy::Bushy;
use spaces::filter::KindFilter;
use spaces::kind::Kind;
use spaces::mask::KindMask;
use spaces::order::{Order, OrderLayer};
use spaces::space::Space;

/// What is done with a space once it stands.
pub trait Task {
    fn run<S: Space + Drop>(&self, rt: &HostRuntime, space: S) -> Result<(), Failure>;
}

/// A task over a space with a filter laid over it, if there is one.
#[derive(Drop)]
struct Filtered<T> {
    mask: Option<KindMask>,
    task: T,
}

impl<T: Task> Task for Filtered<T> {
    fn run<S: Space + Drop>(&self, rt: &HostRuntime, space: S) -> Result<(), Failure> {
        match self.mask {
            Some(mask) => self.task.run(rt, KindFilter::new(space, mask)),
            None => self.task.run(rt, space),
        }
    }
}

/// A task over a space with an order laid over it, if there is one.
///
/// One struct for each layer: a trait over both would need an associated type with a parameter.
#[derive(Drop)]
struct Ordered<T> {
    wish: Option<Order>,
    task: T,
}

impl<T: Task> Task for Ordered<T> {
    fn run<S: Space + Drop>(&self, rt: &HostRuntime, space: S) -> Result<(), Failure> {
        match self.wish {
            Some(wish) => self.task.run(rt, OrderLayer::new(space, wish)),
            None => self.task.run(rt, space),
        }
    }
}

#[derive(Clone, Copy)]
enum Source<'a> {
    Memo(&'a str),
    Bushy { relations: u64, join: Kind },
}

/// A source and, from the bottom up, at most a filter, an order and a filter.
#[derive(Clone, Copy)]
pub struct Pile<'a> {
    source: Source<'a>,
    below: Option<KindMask>,
    wish: Option<Order>,
    above: Option<KindMask>,
}

impl<'a> Pile<'a> {
    /// Reads the words of a space.
    pub fn read(words: &mut Words<'a>) -> Result<Pile<'a>, Failure> {
        Ok(Pile {
            source: read_source(words)?,
            below: read_filter(words)?,
            wish: read_order(words)?,
            above: read_filter(words)?,
        })
    }

    /// Makes the space and hands it to a task.
    pub fn run<T: Task + Drop>(self, rt: &HostRuntime, task: T) -> Result<(), Failure> {
        let above = Filtered {
            mask: self.above,
            task,
        };
        let ordered = Ordered {
            wish: self.wish,
            task: above,
        };
        let layers = Filtered {
            mask: self.below,
            task: ordered,
        };
        match self.source {
            Source::Memo(name) => {
                let file = read_bytes(rt, name)?;
                let mut memo = Memo::empty(rt.alloc());
                memo.open(&file)?;
                layers.run(rt, memo)
            }
            Source::Bushy { relations, join } => layers.run(rt, Bushy::new(relations, join)?),
        }
    }
}

fn read_source<'a>(words: &mut Words<'a>) -> Result<Source<'a>, Failure> {
    match words.wanted("a space is wanted: name its source")? {
        "--memo" => Ok(Source::Memo(words.wanted("--memo wants a file")?)),
        "--bushy" => {
            let relations = number(words.wanted(
                "--bushy wants a number of relations and a join",
            )?)?;
            let join = words.wanted("--bushy wants a join after the number of relations")?;
            match lone_kind(join) {
                Some(join) => Ok(Source::Bushy { relations, join }),
                None => Err(Failure::Usage("an operator is one letter of SIHMLFO")),
            }
        }
        _ => Err(Failure::Usage("there is no such source of a space")),
    }
}

fn read_filter(words: &mut Words) -> Result<Option<KindMask>, Failure> {
    if !words.skip("--only") {
        return Ok(None);
    }
    let letters = words.wanted("--only wants the letters of some operators")?;
    Ok(Some(kinds(letters)?))
}

fn read_order(words: &mut Words) -> Result<Option<Order>, Failure> {
    if !words.skip("--order") {
        return Ok(None);
    }
    match words.next() {
        Some("any") => Ok(Some(Order::Any)),
        Some("sorted") => Ok(Some(Order::Sorted)),
        _ => Err(Failure::Usage("--order wants any or sorted")),
    }
}
