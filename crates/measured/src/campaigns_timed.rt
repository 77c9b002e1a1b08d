//! Campaigns over the whole of a prepared space.

use crate::bench::Bench;
use campaigns::campaign::making::make_prepared;
use campaigns::conduct::conduct_prepared;
use engines::cover::{Cover, Covered};
use engines::engine::Engine;
use engines::rows::Rows;
use std::alloc::Global;

/// Draws and runs every plan beside plan 0, by steps of one: how many agree.
fn whole_campaign<E: Engine>(
    bench: &mut Bench,
    engine: &E,
    values: &mut [E::Output],
) -> Option<u64> {
    let ready = make_prepared(&bench.space, 0, 1, 0).ok()?;
    let draws = bench.plans.saturating_add(1);
    let mut finds = [0u64; 1];
    let counts = match conduct_prepared(
        ready,
        &bench.space,
        engine,
        draws,
        &mut bench.work,
        &mut bench.plan,
        values,
        &mut finds,
    ) {
        Ok(ready) => ready.close(),
        Err(stopped) => stopped.close().0,
    };
    Some(counts.agreed)
}

fn cover_campaign(heap: Global, relations: u64) -> Option<u64> {
    let mut bench = Bench::bushy(heap, relations)?;
    let mut values = vec![in heap; Covered::default(); bench.plan.len()].ok()?;
    whole_campaign(&mut bench, &Cover, &mut values)
}

/// Relation r has 10 × (r + 1) rows.
fn rows_campaign(heap: Global, relations: u64) -> Option<u64> {
    let mut bench = Bench::bushy(heap, relations)?;
    let rows = (1..=10).map(|relation| 10 * relation).collect(heap).ok()?;
    let mut values = vec![in heap; 0u64; bench.plan.len()].ok()?;
    whole_campaign(&mut bench, &Rows::new(rows), &mut values)
}

/// A campaign over the bushy space with hash joins, by the cover engine.
#[unsafe(no_mangle)]
pub extern "C" fn planbench_campaign_cover(heap: Global, relations: u64) -> u64 {
    cover_campaign(heap, relations).unwrap_or(0)
}

/// The same by the rows engine.
#[unsafe(no_mangle)]
pub extern "C" fn planbench_campaign_rows(heap: Global, relations: u64) -> u64 {
    rows_campaign(heap, relations).unwrap_or(0)
}
