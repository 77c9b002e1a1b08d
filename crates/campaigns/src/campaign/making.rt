//! The first call of a campaign, over a space with a tally buffer or a prepared one.
//! A call for each, since only the plain one is lent a tally buffer and owes what it leaves there.

ghost use Rattle.std.specs.Prelude.{◌≡◌, None, not, length};
ghost use Rattle.numbering.specs.Refusals.{after_tally, count_checks, first_of};
ghost use Rattle.prepared.specs.Prepares.{table};
ghost use Rattle.campaigns.specs.Calls.{Begun, Made};
ghost use Rattle.campaigns.specs.Refusals.{bad_step, StepRule};

use crate::campaign::Ready;
use crate::counts::Counts;
use crate::divisors::coprime;
use crate::refusal::CampaignRefusal;
use numbering::counting::count;
use numbering::tally::Tally;
use prepared::prepared::Prepared;
use spaces::space::Space;

/// Whether steps of this length meet all of n numbers.
pub fn usable_step(n: u64, step: u64) -> bool
    ensures { result ≡ not (bad_step n step) }
{
    0 < step && step <= n && coprime(step, n)
}

/// A campaign of n plans, of which none is drawn.
fn begin(n: u64, start: u64, step: u64, baseline: u64) -> Result<Ready, CampaignRefusal>
    ensures { Begun n start step baseline result }
{
    if start >= n {
        return Err(CampaignRefusal::BadStart);
    }
    if baseline >= n {
        return Err(CampaignRefusal::BadBaseline);
    }
    if !usable_step(n, step) {
        return Err(CampaignRefusal::BadStep);
    }
    Ok(Ready {
        n,
        start,
        step,
        baseline,
        next: start,
        counts: Counts::default(),
    })
}

/// Makes a campaign over the plans of a space, which draws them from `start` on by steps of `step` and
/// runs them beside `baseline`.
#[tactic(auto, using(crate::proofs::Begun::begun_made))]
pub fn make<S: Space>(
    space: &S,
    start: u64,
    step: u64,
    baseline: u64,
    tallies: &mut [Tally],
) -> Result<Ready, CampaignRefusal>
    ensures answer { Made (S.meaning space.now) (length tallies.old) start step baseline result }
    ensures tallies { tallies.new ≡ after_tally (S.meaning space.now) tallies.old }
    ensures steps { StepRule }
{
    let (plans, _) = count(space, tallies)?;
    begin(plans, start, step, baseline)
}

/// Makes a campaign over the plans of a prepared space.
///
/// It answers as `make` does with a tally buffer that is just long enough.
pub fn make_prepared(
    space: &Prepared,
    start: u64,
    step: u64,
    baseline: u64,
) -> Result<Ready, CampaignRefusal>
    ensures answer { Made (table space.now) (table space.now).goals start step baseline result }
    ensures counted { first_of (count_checks (table space.now) (table space.now).goals) ≡ None }
    ensures steps { StepRule }
{
    let (plans, _) = space.count();
    begin(plans, start, step, baseline)
}
