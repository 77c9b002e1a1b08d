//! An engine that counts rows.

ghost use Rattle.std.specs.Prelude.{◌≡◌, ◌==◌};
ghost use Rattle.engines.specs.Faults.{numbered};
ghost use Rattle.engines.specs.RowCounts.{counted as counted_rows, row_rule, scanned};
ghost use Rattle.std.proofs.Common.{eq-eqb, refl};

use crate::engine::Engine;
use crate::fault::Fault;
use spaces::kind::Kind;

/// The most rows that a result has.
pub const MOST_ROWS: u64 = 1_000_000_000_000_000_000;

/// Counts the rows of a plan from those of the relations 0, 1, and so on.
#[derive(Drop)]
pub struct Rows {
    relations: Vec<u64>,
}

impl Rows {
    /// The engine over relations that have these numbers of rows.
    pub fn new(relations: Vec<u64>) -> Rows
        ensures { result.relations ≡ relations }
    {
        Rows { relations }
    }
}

/// A number of rows, unless it is too large.
fn counted(rows: u64) -> Result<u64, Fault>
    ensures { numbered result ≡ counted_rows rows }
{
    if rows > MOST_ROWS {
        Err(Fault::TooManyRows)
    } else {
        Ok(rows)
    }
}

/// The rows of a relation.
fn scan(relations: &[u64], tag: u16) -> Result<u64, Fault>
    ensures { numbered result ≡ scanned relations.now tag }
{
    let rows = *relations.get(tag as usize).ok_or(Fault::NoSuchRelation)?;
    counted(rows)
}

impl Engine for Rows {
    type Output = u64;

    ghost rule = { λ e. row_rule e.relations.items };

    ghost alike = { λ _ a b. (a == b) };

    ghost reflexive = { λ _ a. eq-eqb a a refl };

    fn node(&self, kind: Kind, tag: u16, children: &[u64]) -> Result<u64, u8> {
        if children.len() != kind.arity() as usize {
            return Err(Fault::ChildrenMisfit.into());
        }
        let rows = match kind {
            Kind::Scan | Kind::IndexScan => scan(&self.relations, tag)?,
            Kind::HashJoin | Kind::MergeJoin | Kind::NestedLoops => {
                // A product past 64 bits stops at a number that is too large anyway.
                counted(children[0].saturating_mul(children[1]))?
            }
            Kind::Filter => counted(children[0] / (tag as u64 + 1))?,
            Kind::Sort => counted(children[0])?,
        };
        Ok(rows)
    }

    fn same(&self, baseline: &u64, other: &u64) -> bool {
        *baseline == *other
    }
}
