//! The plan bench: counts the plans of a plan space, writes the plan of a number, tells the number of a plan, and conducts campaigns.
#![tactic(auto)]

mod campaign;
mod conducting;
mod count;
mod engine_words;
mod failure;
mod input;
mod node_lines;
mod number;
mod pile;
mod plan;
mod room;
mod words;

use crate::campaign::run_campaign_words;
use crate::count::run_count;
use crate::failure::Failure;
use crate::number::run_number;
use crate::plan::run_plan;
use crate::words::Words;
use std::env;
use std::process::ExitCode;

const USAGE: &str = "usage: planbench count SPACE
       planbench plan SPACE NUMBER ..
       planbench number SPACE TEXT
       planbench number SPACE --nodes FILE
       planbench campaign SPACE --engine ENGINE --start N --step N --baseline N [--draws N] [--finds N]
       planbench help

A SPACE is one source:
  --memo FILE        a memo file; - is standard input
  --bushy N LETTER   all bushy trees over N relations, 1 to 10, with the join H (hash), M (merge) or L (nested loops)
and then, from the bottom up, at most one of each over it:
  --only LETTERS     only alternatives of these kinds, letters of SIHMLFO
  --order WISH       every goal in any order and sorted, the root as wished: any or sorted
  --only LETTERS     once more, above the order

count prints how many plans the space holds and how many nodes the largest has.
plan prints a line for each number: the number and the text of the plan that has it.
number prints the number of a plan, given as its text or as a FILE with a line for each node:
goal, letter, tag, left goal, right goal; - is standard input.
campaign draws plans from number --start on by --step, runs each beside the --baseline, and prints how many
were drawn, agreed, differed, had a fault and were skipped, and a line for each that differed. It goes on until
every plan is drawn, or --draws are made. There is room for 4096 differing plans, or for --finds.
An ENGINE is cover, or rows: and the row counts of relations 0, 1, .. with commas between.
";

fn run(rt: &HostRuntime) -> Result<(), Failure> {
    let args: Vec<String> = env::args(rt)?.collect(rt.alloc())?;
    let mut words = Words::new(&args);
    // a `match` over what a user types: the commands take the words as they come
    match words.wanted("a command is wanted")? {
        "count" => run_count(rt, &mut words),
        "plan" => run_plan(rt, &mut words),
        "number" => run_number(rt, &mut words),
        "campaign" => run_campaign_words(rt, &mut words),
        "help" => {
            words.end()?;
            rt.print(USAGE)?;
            Ok(())
        }
        _ => Err(Failure::Usage("there is no such command")),
    }
}

/// A failure is told on standard error.
fn main(rt: HostRuntime) -> ExitCode {
    let Err(failure) = run(&rt) else {
        return ExitCode::SUCCESS;
    };
    let _ = eprintln!(rt; "planbench: {failure}");
    if let Failure::Usage(_) = failure {
        let _ = eprint!(rt; "{USAGE}");
    }
    ExitCode::FAILURE
}
