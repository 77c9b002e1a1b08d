//! The command `campaign`.

use crate::conducting::run_campaign;
use crate::engine_words::EngineWord;
use crate::failure::Failure;
use crate::pile::{Pile, Task};
use crate::room::Room;
use crate::words::{Words, number, numbers};
use engines::cover::{Cover, Covered};
use engines::rows::Rows;
use spaces::space::Space;

/// Room for finds where none is asked for.
const FINDS: u64 = 4096;

/// What a campaign is made of, and how far it goes.
#[derive(Clone, Copy)]
pub struct Request {
    pub start: u64,
    pub step: u64,
    pub baseline: u64,
    /// How many draws; none for all plans.
    pub draws: Option<u64>,
    /// Room for so many finds.
    pub finds: u64,
}

/// Conducts a campaign over a space with an engine.
#[derive(Clone, Copy)]
struct Campaign<'a> {
    engine: EngineWord<'a>,
    request: Request,
}

impl Task for Campaign<'_> {
    fn run<S: Space + Drop>(&self, rt: &HostRuntime, space: S) -> Result<(), Failure> {
        let heap = rt.alloc();
        let mut room = Room::new(heap, &space)?;
        match self.engine {
            EngineWord::Cover => {
                let mut values = vec![in heap; Covered::default(); room.largest]?;
                run_campaign(rt, &space, &Cover, self.request, &mut room, &mut values)
            }
            EngineWord::Rows(counts) => {
                let engine = Rows::new(numbers(heap, counts)?);
                let mut values = vec![in heap; 0u64; room.largest]?;
                run_campaign(rt, &space, &engine, self.request, &mut room, &mut values)
            }
        }
    }
}

/// The options of a campaign, as they come in.
#[derive(Clone, Copy, Default)]
struct Options<'a> {
    engine: Option<EngineWord<'a>>,
    start: Option<u64>,
    step: Option<u64>,
    baseline: Option<u64>,
    draws: Option<u64>,
    finds: Option<u64>,
}

impl<'a> Options<'a> {
    /// Takes one option, by the name that a user types.
    fn set(&mut self, name: &str, value: &'a str) -> Result<(), Failure> {
        match name {
            "--engine" => self.engine = Some(value.try_into()?),
            "--start" => self.start = Some(number(value)?),
            "--step" => self.step = Some(number(value)?),
            "--baseline" => self.baseline = Some(number(value)?),
            "--draws" => self.draws = Some(number(value)?),
            "--finds" => self.finds = Some(number(value)?),
            _ => return Err(Failure::Usage("there is no such option of campaign")),
        }
        Ok(())
    }

    /// Reads all options.
    fn read(words: &mut Words<'a>) -> Result<Options<'a>, Failure> {
        let mut options = Options::default();
        for pair in words.rest().chunks(2) {
            let [name, value] = pair else {
                return Err(Failure::Usage("an option of campaign wants a value"));
            };
            options.set(name.as_str(), value.as_str())?;
        }
        Ok(options)
    }
}

/// `campaign SPACE --engine ENGINE --start N --step N --baseline N [--draws N] [--finds N]`
pub fn run_campaign_words(rt: &HostRuntime, words: &mut Words) -> Result<(), Failure> {
    let pile = Pile::read(words)?;
    let options = Options::read(words)?;
    let engine = options
        .engine
        .ok_or(Failure::Usage("campaign wants an --engine"))?;
    let request = Request {
        start: options
            .start
            .ok_or(Failure::Usage("campaign wants a --start"))?,
        step: options
            .step
            .ok_or(Failure::Usage("campaign wants a --step"))?,
        baseline: options
            .baseline
            .ok_or(Failure::Usage("campaign wants a --baseline"))?,
        draws: options.draws,
        finds: options.finds.unwrap_or(FINDS),
    };
    pile.run(rt, Campaign { engine, request })
}
