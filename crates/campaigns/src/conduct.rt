//! A campaign conducted draw by draw, over a space with a tally buffer or a prepared one.
//! A call for each, since only the plain one is lent a tally buffer and owes what it leaves there.

ghost use Rattle.std.specs.Prelude.{◌≡◌, IfOk};
ghost use Rattle.prepared.specs.Prepares.{table};
ghost use Rattle.campaigns.specs.declared.conduct.Stopped.TheVariants.{AtDraw, AtRun};
ghost use Rattle.campaigns.specs.Baselines.{Keeps};
ghost use Rattle.campaigns.specs.Conduct.{Conducted, HistoriesGoOn, stopped_in, why_stopped};
ghost use Rattle.campaigns.specs.Promises.{told_counts};
ghost use Rattle.campaigns.specs.Verdicts.{by_engine, EveryHistoryWith};

use crate::campaign::baseline::Baseline;
use crate::campaign::{Drawn, NotDrawn, NotRun, Ran, Ready};
use crate::counts::Counts;
use crate::refusal::CampaignRefusal;
use engines::engine::Engine;
use numbering::due::Due;
use numbering::node::Node;
use numbering::tally::Tally;
use prepared::prepared::Prepared;
use spaces::space::Space;

/// The call at which a campaign stopped, with what it handed back.
pub enum Stopped {
    /// A draw was refused, as it is where every plan is drawn.
    AtDraw(NotDrawn),
    /// A run was refused, and its plan still waits.
    AtRun(NotRun),
}

impl From<NotDrawn> for Stopped {
    ghost from_gives = { λ refused stopped. stopped ≡ AtDraw refused };

    fn from(refused: NotDrawn) -> Stopped {
        Stopped::AtDraw(refused)
    }
}

impl From<NotRun> for Stopped {
    ghost from_gives = { λ refused stopped. stopped ≡ AtRun refused };

    fn from(refused: NotRun) -> Stopped {
        Stopped::AtRun(refused)
    }
}

impl Stopped {
    /// Ends the campaign, and gives what it had counted when it stopped and why it stopped.
    ///
    /// A plan that still waits is given up, and not counted as skipped.
    pub fn close(self) -> (Counts, CampaignRefusal)
        ensures { result ≡ (told_counts (stopped_in self), why_stopped self) }
    {
        match self {
            Stopped::AtDraw(NotDrawn { ready, why }) => (ready.close(), why),
            Stopped::AtRun(NotRun { pending, why }) => {
                let counts = pending.counts();
                pending.skip().close();
                (counts, why)
            }
        }
    }
}

/// Draws a plan and runs it.
fn draw_and_run<S: Space, E: Engine>(
    ready: Ready,
    space: &S,
    engine: &E,
    tallies: &mut [Tally],
    work: &mut [Due],
    plan: &mut [Node],
    values: &mut [E::Output],
    finds: &mut [u64],
) -> Result<Ready, Stopped>
    ensures { Conducted (S.Space.meaning space.now) (by_engine (E.Engine.rule engine.now) (E.Engine.alike engine.now) (S.Space.meaning space.now)) 1 ready finds.old finds.new result }
{
    let Drawn {
        pending,
        number: _,
        len: _,
    } = ready.draw(space, tallies, work, plan)?;
    let Ran { ready, outcome: _ } = pending.run(space, engine, tallies, work, plan, values, finds)?;
    Ok(ready)
}

/// Draws and runs plans until a call is refused or `limit` of them are drawn and run.
///
/// The whole is a history that goes on from the campaign's, so what holds of every history holds of
/// it; a finished one stops at the draw that is refused because every plan is drawn. The tally, work,
/// plan and values buffers may hold anything afterwards.
pub fn conduct<S: Space, E: Engine>(
    ready: Ready,
    space: &S,
    engine: &E,
    limit: u64,
    tallies: &mut [Tally],
    work: &mut [Due],
    plan: &mut [Node],
    values: &mut [E::Output],
    finds: &mut [u64],
) -> Result<Ready, Stopped>
    ensures conducted { Conducted (S.Space.meaning space.now) (by_engine (E.Engine.rule engine.now) (E.Engine.alike engine.now) (S.Space.meaning space.now)) limit ready finds.old finds.new result }
    ensures continued { HistoriesGoOn (S.Space.meaning space.now) (by_engine (E.Engine.rule engine.now) (E.Engine.alike engine.now) (S.Space.meaning space.now)) }
    ensures histories { EveryHistoryWith (E.Engine.rule engine.now) (E.Engine.alike engine.now) }
{
    let mut state = ready;
    for _ in 0..limit {
        state = draw_and_run(state, space, engine, tallies, work, plan, values, finds)?;
    }
    Ok(state)
}

/// Draws a plan of a prepared space and runs it beside what is kept of the baseline.
fn draw_and_run_prepared<E: Engine>(
    ready: Ready,
    space: &Prepared,
    engine: &E,
    baseline: &mut Baseline<E::Output>,
    work: &mut [Due],
    plan: &mut [Node],
    values: &mut [E::Output],
    finds: &mut [u64],
) -> Result<Ready, Stopped>
    requires { Keeps (E.Engine.rule engine.now) (table space.now) ready.baseline baseline.old.kept }
    ensures conducted { Conducted (table space.now) (by_engine (E.Engine.rule engine.now) (E.Engine.alike engine.now) (table space.now)) 1 ready finds.old finds.new result }
    ensures keeps { Keeps (E.Engine.rule engine.now) (table space.now) ready.baseline baseline.new.kept }
    ensures beside { IfOk result (λ next. next.baseline ≡ ready.baseline) }
{
    let Drawn {
        pending,
        number: _,
        len,
    } = ready.draw_prepared(space, work, plan)?;
    let Ran { ready, outcome: _ } = pending.run_drawn(
        space, engine, baseline, len, work, plan, values, finds,
    )?;
    Ok(ready)
}

/// Draws and runs plans of a prepared space until a call is refused or `limit` of them are drawn and run.
///
/// It answers as `conduct` does over the space that was prepared, and works the baseline out once. The work, plan and values
/// buffers may hold anything afterwards.
pub fn conduct_prepared<E: Engine>(
    ready: Ready,
    space: &Prepared,
    engine: &E,
    limit: u64,
    work: &mut [Due],
    plan: &mut [Node],
    values: &mut [E::Output],
    finds: &mut [u64],
) -> Result<Ready, Stopped>
    ensures conducted { Conducted (table space.now) (by_engine (E.Engine.rule engine.now) (E.Engine.alike engine.now) (table space.now)) limit ready finds.old finds.new result }
    ensures continued { HistoriesGoOn (table space.now) (by_engine (E.Engine.rule engine.now) (E.Engine.alike engine.now) (table space.now)) }
    ensures histories { EveryHistoryWith (E.Engine.rule engine.now) (E.Engine.alike engine.now) }
{
    // no loop shared with `conduct` by a closure: its contract would have to say what the closure does to the lent finds
    let (mut state, mut baseline) = (ready, Baseline::new());
    for _ in 0..limit {
        let kept = &mut baseline;
        state = draw_and_run_prepared(state, space, engine, kept, work, plan, values, finds)?;
    }
    Ok(state)
}
