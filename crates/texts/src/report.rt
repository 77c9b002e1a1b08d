//! Lines and reports of the plans that have given numbers.
//!
//! All lengths are known before the first byte is written, so a refused call leaves the text buffer
//! as it was.

ghost use Rattle.std.specs.Prelude.{◌≡◌, ℕ, ◌+◌, ◌<◌, ◌≤◌, false, List, length};
ghost use Rattle.numbering.specs.Ranks.{unrank_checks, write_checks};
ghost use Rattle.numbering.specs.Refusals.{after_tally, first_of, plans};
ghost use Rattle.texts.specs.Reports.{AreLines, HasRoom, IsLine, Lined, Measured, Put, Reported, Untouched, any_past, report_checks};
ghost use Rattle.texts.specs.Writers.{HasSpace, Writes};

use crate::line::line_length;
use crate::writer::Writer;
use numbering::counted::Counted;
use numbering::due::Due;
use numbering::node::Node;
use numbering::ready::ready_to_write;
use numbering::refusal::Refusal;
use numbering::tallied::Tallied;
use numbering::tally::Tally;
use numbering::writing::write_plan;
use spaces::space::Space;

/// Whether some number is not below `limit`.
fn any_past_limit(numbers: &[u64], limit: u64) -> bool
    ensures { result ≡ any_past limit numbers.now }
{
    numbers.iter().any(|number| *number >= limit)
}

// The space and its two buffers are passed one by one: a struct that holds them would owe, in each method, a clause that the space is the same.

/// How long the line of the plan with this number is.
#[tactic(auto, using(crate::proofs::Reports::written_fits, crate::proofs::Reports::written_long))]
fn measure_line<C: Counted>(counted: &C, number: u64, work: &mut [Due], plan: &mut [Node]) -> u128
    requires room_for_plan { HasRoom (C.meaning counted.now) (length work.old) (length plan.old) }
    requires below { number < plans (C.meaning counted.now) }
    ensures { Measured (C.meaning counted.now) number result }
{
    let len = write_plan(counted, number, work, plan);
    line_length(number, &plan[..len])
}

/// Writes the line of the plan with this number.
#[tactic(auto, using(crate::proofs::Reports::written_fits, crate::proofs::Reports::written_long))]
fn write_line<C: Counted>(
    counted: &C,
    number: u64,
    work: &mut [Due],
    plan: &mut [Node],
    writer: &mut Writer,
)
    requires room_for_plan { HasRoom (C.meaning counted.now) (length work.old) (length plan.old) }
    requires below { number < plans (C.meaning counted.now) }
    requires room { (bytes : List ℕ) → IsLine (C.meaning counted.now) number bytes → HasSpace writer.old bytes }
    ensures { Put (C.meaning counted.now) number writer.old writer.new }
{
    let len = write_plan(counted, number, work, plan);
    writer.line(number, &plan[..len]);
}

/// How long the lines of all the numbers are: in 128 bits, which they do not outgrow.
#[tactic(auto, using(crate::proofs::Reports::each_below))]
fn measure_lines<C: Counted>(
    counted: &C,
    numbers: &[u64],
    work: &mut [Due],
    plan: &mut [Node],
) -> u128
    requires room_for_plan { HasRoom (C.meaning counted.now) (length work.old) (length plan.old) }
    requires below { any_past (plans (C.meaning counted.now)) numbers.now ≡ false }
    ensures { (bytes : List ℕ) → AreLines (C.meaning counted.now) numbers.now bytes → result ≡ length bytes }
{
    let mut total: u128 = 0;
    for number in numbers {
        total += measure_line(counted, *number, work, plan);
    }
    total
}

/// Writes the lines of all the numbers.
#[tactic(auto, using(crate::proofs::Reports::each_below))]
fn write_lines<C: Counted>(
    counted: &C,
    numbers: &[u64],
    work: &mut [Due],
    plan: &mut [Node],
    writer: &mut Writer,
)
    requires room_for_plan { HasRoom (C.meaning counted.now) (length work.old) (length plan.old) }
    requires below { any_past (plans (C.meaning counted.now)) numbers.now ≡ false }
    requires room { (bytes : List ℕ) → AreLines (C.meaning counted.now) numbers.now bytes → HasSpace writer.old bytes }
    ensures { (bytes : List ℕ) → AreLines (C.meaning counted.now) numbers.now bytes → Writes writer.old writer.new bytes }
{
    for number in numbers {
        write_line(counted, *number, work, plan, writer);
    }
}

/// Writes a line for each of the numbers into `text` from byte 0 on and gives their length.
///
/// The tallies of the space are written as by `count`. Refused, the call leaves `text` as it was; a
/// number that no plan has is refused even where the lines before it would not fit. `work` may hold
/// anything afterwards, and so may `plan` once all buffers but `text` are known to be long enough.
pub fn report<S: Space>(
    space: &S,
    numbers: &[u64],
    tallies: &mut [Tally],
    work: &mut [Due],
    plan: &mut [Node],
    text: &mut [u8],
) -> Result<usize, Refusal>
    ensures answer { Reported (S.meaning space.now) (first_of (report_checks (S.meaning space.now) numbers.now (length tallies.old) (length work.old) (length plan.old))) numbers.now result text.old text.new }
    ensures tallies { tallies.new ≡ after_tally (S.meaning space.now) tallies.old }
    ensures plan { Untouched (first_of (write_checks (S.meaning space.now) (length tallies.old) (length work.old) (length plan.old))) plan.old plan.new }
{
    let (plans, _) = ready_to_write(space, tallies, work.len(), plan.len())?;
    if any_past_limit(numbers, plans) {
        return Err(Refusal::NoSuchPlan);
    }
    let counted = Tallied { space, tallies };
    let len = measure_lines(&counted, numbers, work, plan);
    if len > text.len() as u128 {
        return Err(Refusal::TextShort);
    }
    let mut writer = Writer::new(text);
    write_lines(&counted, numbers, work, plan, &mut writer);
    Ok(len as usize)
}

/// Writes the line of the plan that has the number: the report of that number alone.
pub fn line<S: Space>(
    space: &S,
    number: u64,
    tallies: &mut [Tally],
    work: &mut [Due],
    plan: &mut [Node],
    text: &mut [u8],
) -> Result<usize, Refusal>
    ensures answer { Lined (S.meaning space.now) (first_of (unrank_checks (S.meaning space.now) number (length tallies.old) (length work.old) (length plan.old))) number result text.old text.new }
    ensures tallies { tallies.new ≡ after_tally (S.meaning space.now) tallies.old }
    ensures plan { Untouched (first_of (write_checks (S.meaning space.now) (length tallies.old) (length work.old) (length plan.old))) plan.old plan.new }
{
    report(space, &[number], tallies, work, plan, text)
}
