//! All bushy join trees over some relations.

ghost use Rattle.std.specs.Prelude.{◌≡◌, ◌==◌, ◌-◌, ◌^◌, ◌<◌, ◌≤◌, cond, map, Some, None, IfOk, MatchResult, count_ones};
ghost use Rattle.spaces.specs.Bushes.{bushes, deposit, scan, split};
ghost use Rattle.spaces.specs.Kinds.{arity};
ghost use Rattle.spaces.specs.declared.kind.Kind.TheVariants.{Scan};
ghost use Rattle.spaces.specs.Refusals.{bushy_refusal};
ghost use Rattle.std.specs.List.{range_with_len};
ghost use Rattle.spaces.specs.BushesLemmas.{bushes_lawful};

use crate::kind::Kind;
use crate::mask::KindMask;
use crate::refusal::MakeRefusal;
use crate::space::{Alternative, Space};
use std::alloc::{AllocError, Global};

/// All bushy trees over 1 to 10 relations with one join operator.
///
/// A goal is the set of relations that it joins: relation `r` is bit `r`.
#[derive(Clone, Copy)]
pub struct Bushy {
    relations: u8,
    join: Kind,
    ghost few: { (1 ≤ relations) × (relations ≤ 10) },
    ghost joins: { arity join ≡ 2 },
}

impl Bushy {
    pub fn new(relations: u64, join: Kind) -> Result<Bushy, MakeRefusal>
        ensures { MatchResult result (λ b. (bushy_refusal relations join ≡ None) × (b.relations ≡ relations) × (b.join ≡ join)) (λ e. bushy_refusal relations join ≡ Some e) }
    {
        if relations < 1 || relations > 10 {
            return Err(MakeRefusal::Relations);
        }
        if join.arity() != 2 {
            return Err(MakeRefusal::NoJoin);
        }
        Ok(Bushy {
            relations: relations as u8,
            join,
        })
    }

    /// The kind of all alternatives of a goal: those of a set of one relation are scans, all others joins.
    fn kind_at(&self, goal: u16) -> Kind
        ensures { result ≡ cond (count_ones goal == 1) Scan self.now.join }
    {
        if goal.count_ones() == 1 {
            Kind::Scan
        } else {
            self.join
        }
    }
}

/// The digits of `bits`, lowest first, at the places of the ones of `mask`, lowest first.
fn carried(mask: u16, bits: u16) -> u16
    ensures { result ≡ deposit 16 mask bits }
{
    let mut rest = mask;
    let mut ahead = bits;
    let mut left = 0;
    while rest != 0 {
        let low = 1 << rest.trailing_zeros();
        if ahead % 2 == 1 {
            left += low;
        }
        rest -= low;
        ahead /= 2;
    }
    left
}

/// The scan of the relation that a set of one has.
fn scan_of(set: u16) -> Alternative
    ensures { result ≡ scan set }
{
    Alternative {
        kind: Kind::Scan,
        tag: set.trailing_zeros() as u16,
        left: 0,
        right: 0,
    }
}

/// The splits of a set of relations in a left and a right side. The right sides are its parts from the
/// largest proper one down, so the left sides stand in the order of their digits.
fn splits(join: Kind, set: u16, heap: Global) -> Result<Vec<Alternative>, AllocError>
    requires { 0 < set }
    ensures { IfOk result (λ list. list.items ≡ map (split join set) (range_with_len 0 (2 ^ count_ones set - 2))) }
{
    let count = (1_usize << set.count_ones()).saturating_sub(2);
    let mut list = Vec::with_capacity(heap, count)?;
    let mut right = (set - 1) & set;
    while right != 0 {
        list.push(Alternative {
            kind: join,
            tag: 0,
            left: set - right,
            right,
        })?;
        right = (right - 1) & set;
    }
    Ok(list)
}

impl Space for Bushy {
    ghost meaning = { λ s. bushes s.relations s.join };

    ghost lawful = { λ s. bushes_lawful s.relations s.join s.few s.joins };

    fn goals(&self) -> u16 {
        1 << self.relations
    }

    fn root(&self) -> u16 {
        self.goals() - 1
    }

    fn width(&self, goal: u16) -> u32 {
        if goal >= self.goals() {
            return 0;
        }
        match goal.count_ones() {
            0 => 0,
            1 => 1,
            ones => (1 << ones) - 2,
        }
    }

    fn alternative(&self, goal: u16, index: u32) -> Option<Alternative> {
        if index >= self.width(goal) {
            return None;
        }
        if goal.count_ones() == 1 {
            return Some(scan_of(goal));
        }
        let left = carried(goal, index as u16 + 1);
        Some(Alternative {
            kind: self.join,
            tag: 0,
            left,
            right: goal - left,
        })
    }

    fn list(&self, goal: u16, heap: Global) -> Result<Vec<Alternative>, AllocError> {
        if goal == 0 || goal >= self.goals() {
            return Ok(Vec::new(heap));
        }
        if goal.count_ones() == 1 {
            return vec![in heap; scan_of(goal); 1];
        }
        splits(self.join, goal, heap)
    }

    // no list is made where the mask leaves nothing of it
    fn list_of_kinds(
        &self,
        goal: u16,
        mask: KindMask,
        heap: Global,
    ) -> Result<Vec<Alternative>, AllocError> {
        if !mask.has(self.kind_at(goal)) {
            return Ok(Vec::new(heap));
        }
        self.list(goal, heap)
    }
}
