//! The run, over a space with a tally buffer or a prepared one.
//! A call for each, since only the plain one is lent a tally buffer and owes what it leaves there.

ghost use Rattle.std.specs.Prelude.{◌≡◌, ◌≤◌, length, take, OnOk};
ghost use Rattle.numbering.specs.Listings.{listing};
ghost use Rattle.numbering.specs.Refusals.{after_tally, largest, plans as plans_of};
ghost use Rattle.numbering.specs.Standing.{Standing};
ghost use Rattle.prepared.specs.Prepares.{table};
ghost use Rattle.campaigns.specs.Baselines.{Keeps, RunsBeside};
ghost use Rattle.campaigns.specs.Calls.{passed, run_writes, Runs, Settled};
ghost use Rattle.campaigns.specs.Refusals.{first_reason, lent_of, run_checks, run_refusal};
ghost use Rattle.campaigns.specs.Verdicts.{by_engine, EveryHistoryWith};

use crate::campaign::baseline::Baseline;
use crate::campaign::comparing::{compare, tell};
use crate::campaign::{NotRun, Pending, Ran};
use crate::outcome::Outcome;
use crate::refusal::CampaignRefusal;
use engines::engine::Engine;
use engines::evaluation::evaluate;
use numbering::due::Due;
use numbering::node::Node;
use numbering::ready::ready_to_write;
use numbering::tallied::Tallied;
use numbering::tally::Tally;
use prepared::prepared::Prepared;
use spaces::space::Space;

/// The checks of a campaign of n plans before it works out plans of a space that has `plans` of them, the largest of `size` nodes.
fn runnable(plans: u64, size: u16, values: usize, n: u64) -> Result<(), CampaignRefusal>
    ensures answer { result ≡ passed (first_reason (run_checks plans size values n)) }
    ensures room { OnOk result ((size ≤ values) × (plans ≡ n)) }
{
    if values < size as usize {
        Err(CampaignRefusal::ValuesShort)
    } else if plans != n {
        Err(CampaignRefusal::OtherSpace)
    } else {
        Ok(())
    }
}

/// The checks of a run by a campaign of n plans, before any plan is worked out. Past them the tallies stand.
fn may_run<S: Space>(
    space: &S,
    n: u64,
    tallies: &mut [Tally],
    work: usize,
    plan: usize,
    values: usize,
) -> Result<(), CampaignRefusal>
    ensures answer { result ≡ passed (run_refusal (S.meaning space.now) (lent_of (length tallies.old) work plan) values n) }
    ensures tallies { tallies.new ≡ after_tally (S.meaning space.now) tallies.old }
    ensures standing { OnOk result (Standing (S.meaning space.now) tallies.new × (largest (S.meaning space.now) ≤ work) × (largest (S.meaning space.now) ≤ plan) × (largest (S.meaning space.now) ≤ values) × (plans_of (S.meaning space.now) ≡ n)) }
{
    let (plans, size) = ready_to_write(space, tallies, work, plan)?;
    runnable(plans, size, values, n)
}

/// The same of a run over a prepared space.
fn may_run_prepared(
    space: &Prepared,
    n: u64,
    work: usize,
    plan: usize,
    values: usize,
) -> Result<(), CampaignRefusal>
    ensures answer { result ≡ passed (run_refusal (table space.now) (lent_of (table space.now).goals work plan) values n) }
    ensures room { OnOk result ((largest (table space.now) ≤ work) × (largest (table space.now) ≤ plan) × (largest (table space.now) ≤ values) × (plans_of (table space.now) ≡ n)) }
{
    let (plans, size) = space.ready_to_write(work, plan)?;
    runnable(plans, size, values, n)
}

impl Pending {
    /// Counts what the two plans told, and notes a differing plan in the finds list.
    fn conclude(self, told: Result<Outcome, u8>, finds: &mut [u64]) -> Result<Ran, NotRun>
        ensures { Settled told self finds.old finds.new result }
    {
        let mut counts = self.counts;
        let outcome = match told {
            Ok(outcome) => outcome,
            Err(fault) => {
                return Err(NotRun {
                    pending: self,
                    why: CampaignRefusal::BaselineFaults(fault),
                });
            }
        };
        match outcome {
            Outcome::Agreed => counts.agreed += 1,
            Outcome::Faulted(_) => counts.faulted += 1,
            Outcome::Differing => {
                // no `get_mut`: its contract leaves open what the slice holds afterwards
                let index = counts.differing as usize;
                if index >= finds.len() {
                    return Err(NotRun {
                        pending: self,
                        why: CampaignRefusal::FindsShort,
                    });
                }
                finds[index] = self.number;
                counts.differing += 1;
            }
        }
        Ok(Ran {
            ready: self.settle(counts),
            outcome,
        })
    }

    /// Works out the baseline and the drawn plan, and tells whether the engine calls their results the same.
    ///
    /// Where it does not, the plan's number goes into `finds` at the index that the differing ones have
    /// come to. A refused run hands the campaign back. Past the checks of the space and the buffers the
    /// list of the baseline, and then that of the drawn plan, is written into the first entries of
    /// `plan`. `work` and `values` may hold anything afterwards.
    pub fn run<S: Space, E: Engine>(
        self,
        space: &S,
        engine: &E,
        tallies: &mut [Tally],
        work: &mut [Due],
        plan: &mut [Node],
        values: &mut [E::Output],
        finds: &mut [u64],
    ) -> Result<Ran, NotRun>
        ensures answer { Runs (by_engine (E.Engine.rule engine.now) (E.Engine.alike engine.now) (S.Space.meaning space.now)) (S.Space.meaning space.now) (lent_of (length tallies.old) (length work.old) (length plan.old)) (length values.old) self finds.old finds.new result }
        ensures tallies { tallies.new ≡ after_tally (S.Space.meaning space.now) tallies.old }
        ensures written { plan.new ≡ run_writes (by_engine (E.Engine.rule engine.now) (E.Engine.alike engine.now) (S.Space.meaning space.now)) (S.Space.meaning space.now) (lent_of (length tallies.old) (length work.old) (length plan.old)) (length values.old) self plan.old }
        ensures histories { EveryHistoryWith (E.Engine.rule engine.now) (E.Engine.alike engine.now) }
    {
        if let Err(why) = may_run(space, self.n, tallies, work.len(), plan.len(), values.len()) {
            return Err(NotRun { pending: self, why });
        }
        let counted = Tallied { space, tallies };
        let mut baseline = Baseline::new();
        let (base, number) = (self.baseline, self.number);
        let told = compare(
            &counted,
            engine,
            &mut baseline,
            base,
            number,
            work,
            plan,
            values,
        );
        self.conclude(told, finds)
    }

    /// Works out the drawn plan, and tells whether the engine calls its result the same as the baseline's, which the first run
    /// works out and `baseline` keeps.
    ///
    /// Where `baseline` was new at the first run of the campaign and is lent to each of its runs, over one space and engine, the
    /// answers are those of `run` with a tally buffer that is just long enough. All buffers are left as by that call.
    #[tactic(auto, using(crate::proofs::Passed::passed_none))]
    pub fn run_prepared<E: Engine>(
        self,
        space: &Prepared,
        engine: &E,
        baseline: &mut Baseline<E::Output>,
        work: &mut [Due],
        plan: &mut [Node],
        values: &mut [E::Output],
        finds: &mut [u64],
    ) -> Result<Ran, NotRun>
        ensures answer { RunsBeside (E.Engine.rule engine.now) (E.Engine.alike engine.now) (table space.now) (lent_of (table space.now).goals (length work.old) (length plan.old)) (length values.old) self baseline.old.kept baseline.new.kept finds.old finds.new plan.old plan.new result }
        ensures histories { EveryHistoryWith (E.Engine.rule engine.now) (E.Engine.alike engine.now) }
    {
        if let Err(why) = may_run_prepared(space, self.n, work.len(), plan.len(), values.len()) {
            return Err(NotRun { pending: self, why });
        }
        let (base, number) = (self.baseline, self.number);
        let told = compare(space, engine, baseline, base, number, work, plan, values);
        self.conclude(told, finds)
    }

    /// Runs the plan that was drawn just now, whose list still stands in the first `len` entries of `plan`.
    pub(crate) fn run_drawn<E: Engine>(
        self,
        space: &Prepared,
        engine: &E,
        baseline: &mut Baseline<E::Output>,
        len: usize,
        work: &mut [Due],
        plan: &mut [Node],
        values: &mut [E::Output],
        finds: &mut [u64],
    ) -> Result<Ran, NotRun>
        requires keeps { Keeps (E.Engine.rule engine.now) (table space.now) self.baseline baseline.old.kept }
        requires listed { take len plan.old ≡ listing (table space.now) self.number }
        requires fits { len ≤ largest (table space.now) }
        ensures answer { Runs (by_engine (E.Engine.rule engine.now) (E.Engine.alike engine.now) (table space.now)) (table space.now) (lent_of (table space.now).goals (length work.old) (length plan.old)) (length values.old) self finds.old finds.new result }
        ensures keeps { Keeps (E.Engine.rule engine.now) (table space.now) self.baseline baseline.new.kept }
    {
        let Some(Ok(expected)) = &baseline.kept else {
            return self.run_prepared(space, engine, baseline, work, plan, values, finds);
        };
        if let Err(why) = may_run_prepared(space, self.n, work.len(), plan.len(), values.len()) {
            return Err(NotRun { pending: self, why });
        }
        let value = evaluate(engine, &plan[..len], values);
        self.conclude(Ok(tell(engine, expected, value)), finds)
    }
}
