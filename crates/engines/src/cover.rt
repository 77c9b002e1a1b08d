//! An engine that tells which relations a plan covers, and whether its output is sorted.

ghost use Rattle.std.specs.Prelude.{◌≡◌, ◌==◌, Decides};
ghost use Rattle.engines.specs.Covers.{cover_rule, joined as joined_sides, scanned};
ghost use Rattle.engines.specs.Faults.{numbered};
ghost use Rattle.engines.specs.Members.{Equal};
ghost use Rattle.std.proofs.Common.{eq-eqb, refl};

use crate::engine::Engine;
use crate::fault::Fault;
use crate::sets::{only, overlap, united};
use spaces::kind::Kind;
use spaces::sorting::output_is_sorted;

/// The relations that a plan covers, relation `r` as bit `r`, and whether its output is sorted.
#[derive(Clone, Copy, PartialEq, Eq, Debug, Default)]
pub struct Covered {
    pub relations: u64,
    pub sorted: bool,
}

/// Tells which of the relations 0 to 63 a plan covers, and whether its output is sorted.
#[derive(Clone, Copy)]
pub struct Cover;

/// A scan covers the one relation that its tag names.
fn scan(kind: Kind, tag: u16) -> Result<Covered, Fault>
    ensures { numbered result ≡ scanned kind tag }
{
    if tag > 63 {
        return Err(Fault::NoSuchRelation);
    }
    Ok(Covered {
        relations: only(tag),
        sorted: output_is_sorted(kind, tag, false),
    })
}

/// A join covers what its two sides cover, which must have no relation in common.
fn join(kind: Kind, tag: u16, left: Covered, right: Covered) -> Result<Covered, Fault>
    ensures { numbered result ≡ joined_sides kind tag left right }
{
    if overlap(left.relations, right.relations) {
        return Err(Fault::SidesOverlap);
    }
    if kind == Kind::MergeJoin && !(left.sorted && right.sorted) {
        return Err(Fault::ChildUnsorted);
    }
    Ok(Covered {
        relations: united(left.relations, right.relations),
        sorted: output_is_sorted(kind, tag, left.sorted),
    })
}

impl Engine for Cover {
    type Output = Covered;

    ghost rule = { λ _. cover_rule };

    ghost alike = { λ _ a b. (a.relations == b.relations) };

    ghost reflexive = { λ _ a. eq-eqb a.relations a.relations refl };

    fn node(&self, kind: Kind, tag: u16, children: &[Covered]) -> Result<Covered, u8> {
        if children.len() != kind.arity() as usize {
            return Err(Fault::ChildrenMisfit.into());
        }
        let covered = match kind {
            Kind::Scan | Kind::IndexScan => scan(kind, tag)?,
            Kind::HashJoin | Kind::MergeJoin | Kind::NestedLoops => {
                join(kind, tag, children[0], children[1])?
            }
            Kind::Filter | Kind::Sort => Covered {
                relations: children[0].relations,
                sorted: output_is_sorted(kind, tag, children[0].sorted),
            },
        };
        Ok(covered)
    }

    #[tactic(auto, using(crate::proofs::Members::equal_of))]
    fn same(&self, baseline: &Covered, other: &Covered) -> bool
        ensures value { result ≡ (baseline.now.relations == other.now.relations) }
        ensures members { Decides result (Equal baseline.now.relations other.now.relations) }
    {
        baseline.relations == other.relations
    }
}
