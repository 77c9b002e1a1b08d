//! The draw, from a space with a tally buffer or a prepared one.
//! A call for each, since only the plain one is lent a tally buffer and owes what it leaves there.

ghost use Rattle.std.specs.Prelude.{◌≡◌, ◌<◌, ◌≤◌, length, take, IfOk, OnOk, ◌≢◌};
ghost use Rattle.numbering.specs.Numbers.{Numbers};
ghost use Rattle.numbering.specs.Refusals.{after_tally, largest, plans as plans_of};
ghost use Rattle.numbering.specs.Standing.{Standing};
ghost use Rattle.prepared.specs.Prepares.{table};
ghost use Rattle.campaigns.specs.Calls.{counting, Drew, Next, of_pending, of_ready, passed};
ghost use Rattle.campaigns.specs.Counting.{one_drawn};
ghost use Rattle.campaigns.specs.Promises.{EveryHistory};
ghost use Rattle.campaigns.specs.Refusals.{draw_checks, draw_refusal, first_reason, lent_of};

use crate::campaign::{Drawn, NotDrawn, Pending, Ready};
use crate::refusal::CampaignRefusal;
use crate::writing::write_listing;
use numbering::counted::Counted;
use numbering::due::Due;
use numbering::node::Node;
use numbering::ready::ready_to_write;
use numbering::tallied::Tallied;
use numbering::tally::Tally;
use prepared::prepared::Prepared;
use spaces::space::Space;

/// The checks of a campaign of n plans, of which `drawn` are drawn, before it draws from a space of `plans` plans.
fn drawable(plans: u64, n: u64, drawn: u64) -> Result<(), CampaignRefusal>
    ensures answer { result ≡ passed (first_reason (draw_checks plans n drawn)) }
    ensures left { OnOk result ((plans ≡ n) × (drawn ≢ n)) }
{
    if plans != n {
        Err(CampaignRefusal::OtherSpace)
    } else if drawn == n {
        Err(CampaignRefusal::AllDrawn)
    } else {
        Ok(())
    }
}

/// The checks of a draw by a campaign of n plans, of which `drawn` are drawn. Past them the tallies stand.
fn may_draw<S: Space>(
    space: &S,
    n: u64,
    drawn: u64,
    tallies: &mut [Tally],
    work: usize,
    plan: usize,
) -> Result<(), CampaignRefusal>
    ensures answer { result ≡ passed (draw_refusal (S.meaning space.now) (lent_of (length tallies.old) work plan) n drawn) }
    ensures tallies { tallies.new ≡ after_tally (S.meaning space.now) tallies.old }
    ensures standing { OnOk result (Standing (S.meaning space.now) tallies.new × (largest (S.meaning space.now) ≤ work) × (largest (S.meaning space.now) ≤ plan) × (plans_of (S.meaning space.now) ≡ n) × (drawn ≢ n)) }
{
    let (plans, _) = ready_to_write(space, tallies, work, plan)?;
    drawable(plans, n, drawn)
}

/// The same of a draw from a prepared space.
fn may_draw_prepared(
    space: &Prepared,
    n: u64,
    drawn: u64,
    work: usize,
    plan: usize,
) -> Result<(), CampaignRefusal>
    ensures answer { result ≡ passed (draw_refusal (table space.now) (lent_of (table space.now).goals work plan) n drawn) }
    ensures room { OnOk result ((largest (table space.now) ≤ work) × (largest (table space.now) ≤ plan) × (plans_of (table space.now) ≡ n) × (drawn ≢ n)) }
{
    let (plans, _) = space.ready_to_write(work, plan)?;
    drawable(plans, n, drawn)
}

impl Ready {
    /// The campaign once its next plan is drawn.
    fn advance(self) -> Pending
        requires { self.counts.drawn < self.n }
        ensures numbers { of_pending result ≡ counting (of_ready self) (one_drawn self.counts) }
        ensures number { result.number ≡ self.next }
    {
        let Ready {
            n,
            start,
            step,
            baseline,
            next,
            mut counts,
        } = self;
        counts.drawn += 1;
        Pending {
            n,
            start,
            step,
            baseline,
            number: next,
            counts,
        }
    }

    /// Draws the next plan, where the buffers are long enough and a plan is left.
    fn draw_next<C: Counted>(self, counted: &C, work: &mut [Due], plan: &mut [Node]) -> Drawn
        requires work { largest (C.Space.meaning counted.now) ≤ length work.old }
        requires plan { largest (C.Space.meaning counted.now) ≤ length plan.old }
        requires plans { plans_of (C.Space.meaning counted.now) ≡ self.n }
        requires left { self.counts.drawn ≢ self.n }
        ensures { Next (C.Space.meaning counted.now) self plan.old plan.new result }
    {
        let number = self.next;
        let len = write_listing(counted, number, work, plan);
        Drawn {
            pending: self.advance(),
            number,
            len,
        }
    }

    /// Draws the next plan: its list goes into the first entries of `plan`.
    ///
    /// Accepted draw number k, from 0, concerns plan (start + k × step) mod n. A refused draw hands the
    /// campaign back and leaves `plan` as it was. `work` may hold anything afterwards.
    pub fn draw<S: Space>(
        self,
        space: &S,
        tallies: &mut [Tally],
        work: &mut [Due],
        plan: &mut [Node],
    ) -> Result<Drawn, NotDrawn>
        ensures answer { Drew (S.meaning space.now) (lent_of (length tallies.old) (length work.old) (length plan.old)) self plan.old plan.new result }
        ensures tallies { tallies.new ≡ after_tally (S.meaning space.now) tallies.old }
        ensures drawn { IfOk result (λ d. Numbers (S.meaning space.now) (take d.len plan.new) d.number) }
        ensures histories { EveryHistory }
    {
        let drawn = self.counts.drawn;
        match may_draw(space, self.n, drawn, tallies, work.len(), plan.len()) {
            Ok(()) => Ok(self.draw_next(&Tallied { space, tallies }, work, plan)),
            Err(why) => Err(NotDrawn { ready: self, why }),
        }
    }

    /// Draws the next plan from a prepared space: its list goes into the first entries of `plan`.
    ///
    /// It answers as `draw` does with a tally buffer that is just long enough. `work` may hold anything afterwards.
    pub fn draw_prepared(
        self,
        space: &Prepared,
        work: &mut [Due],
        plan: &mut [Node],
    ) -> Result<Drawn, NotDrawn>
        ensures answer { Drew (table space.now) (lent_of (table space.now).goals (length work.old) (length plan.old)) self plan.old plan.new result }
        ensures drawn { IfOk result (λ d. Numbers (table space.now) (take d.len plan.new) d.number) }
        ensures histories { EveryHistory }
    {
        match may_draw_prepared(space, self.n, self.counts.drawn, work.len(), plan.len()) {
            Ok(()) => Ok(self.draw_next(space, work, plan)),
            Err(why) => Err(NotDrawn { ready: self, why }),
        }
    }
}
