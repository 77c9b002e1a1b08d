//! A goal below an order layer, in any order or sorted, as the layer has it.

ghost use Rattle.std.specs.Prelude.{◌≡◌, ◌<◌, map, length, IfOk};
ghost use Rattle.std.specs.List.{AllByRecursion, slice_get};
ghost use Rattle.spaces.specs.Orders.{Small, in_order, lifted, place, sort_of, sortable};
ghost use Rattle.spaces.specs.declared.order.Order.TheVariants.{Any, Sorted};

use crate::keep::{Test, kept_or_width, kept_width};
use crate::kind::Kind;
use crate::order::Order;
use crate::sorting::{output_is_sorted, wants_left_sorted, wants_right_sorted};
use crate::space::{Alternative, Space};
use std::alloc::{AllocError, Global};

/// The test for alternatives whose output is sorted, or is where the left child's is.
#[derive(Clone, Copy)]
pub struct Sortable;

impl Test for Sortable {
    ghost picks = { λ _. sortable };

    fn passes(&self, alternative: Alternative) -> bool {
        output_is_sorted(alternative.kind, alternative.tag, true)
    }
}

/// The layer's goal for a goal below.
pub(crate) fn placed(goal: u16, sorted: bool) -> u16
    requires { goal < 4096 }
    ensures { result ≡ place sorted goal }
{
    if sorted { 2 * goal + 1 } else { 2 * goal }
}

/// An alternative below as one of the layer, where `asked` says whether its output has to be sorted.
fn lift(below: Alternative, asked: bool) -> Alternative
    requires { Small below }
    ensures { result ≡ lifted asked below }
{
    let Alternative {
        kind,
        tag,
        left,
        right,
    } = below;
    Alternative {
        kind,
        tag,
        left: placed(left, wants_left_sorted(kind, tag, asked)),
        right: placed(right, wants_right_sorted(kind, tag)),
    }
}

/// Makes each alternative below one of the layer.
fn lift_all(list: &mut Vec<Alternative>, asked: bool)
    requires { AllByRecursion Small list.old.items }
    ensures { list.new.items ≡ map (lifted asked) list.old.items }
{
    for alternative in list.iter_mut() {
        *alternative = lift(*alternative, asked);
    }
}

/// A goal below, and the order in which the layer has it.
#[derive(Drop)]
pub(crate) struct OrderedGoal<'a, S> {
    pub(crate) below: &'a S,
    pub(crate) goal: u16,
    pub(crate) order: Order,
    pub(crate) ghost small: { goal < 4096 },
}

impl<S: Space> OrderedGoal<'_, S> {
    /// How many alternatives there are.
    pub(crate) fn width(&self) -> u32
        ensures { result ≡ length (in_order self.now.order self.now.goal (S.Space.meaning self.now.below.now)) }
    {
        match self.order {
            Order::Any => self.below.width(self.goal),
            Order::Sorted => kept_width(self.below, &Sortable, self.goal) + 1,
        }
    }

    /// The alternative number `index`.
    pub(crate) fn alternative(&self, index: u32) -> Option<Alternative>
        ensures { result ≡ slice_get (in_order self.now.order self.now.goal (S.Space.meaning self.now.below.now)) index }
    {
        match self.order {
            Order::Any => self.any(index),
            Order::Sorted => self.sorted(index),
        }
    }

    fn any(&self, index: u32) -> Option<Alternative>
        ensures { result ≡ slice_get (in_order Any self.now.goal (S.Space.meaning self.now.below.now)) index }
    {
        let alternative = self.below.alternative(self.goal, index)?;
        Some(lift(alternative, false))
    }

    /// Those below that can be sorted come first, and the sort last.
    fn sorted(&self, index: u32) -> Option<Alternative>
        ensures { result ≡ slice_get (in_order Sorted self.now.goal (S.Space.meaning self.now.below.now)) index }
    {
        match kept_or_width(self.below, &Sortable, self.goal, index) {
            Ok(alternative) => Some(lift(alternative, true)),
            Err(width) if width == index => Some(self.sort()),
            Err(_) => None,
        }
    }

    /// The sort of the goal in any order.
    fn sort(&self) -> Alternative
        ensures { result ≡ sort_of self.now.goal }
    {
        Alternative {
            kind: Kind::Sort,
            tag: 0,
            left: placed(self.goal, false),
            right: 0,
        }
    }

    /// All alternatives.
    pub(crate) fn list(&self, heap: Global) -> Result<Vec<Alternative>, AllocError>
        ensures { IfOk result (λ list. list.items ≡ in_order self.now.order self.now.goal (S.Space.meaning self.now.below.now)) }
    {
        match self.order {
            Order::Any => self.any_list(heap),
            Order::Sorted => self.sorted_list(heap),
        }
    }

    fn any_list(&self, heap: Global) -> Result<Vec<Alternative>, AllocError>
        ensures { IfOk result (λ list. list.items ≡ in_order Any self.now.goal (S.Space.meaning self.now.below.now)) }
    {
        let mut list = self.below.list(self.goal, heap)?;
        lift_all(&mut list, false);
        Ok(list)
    }

    fn sorted_list(&self, heap: Global) -> Result<Vec<Alternative>, AllocError>
        ensures { IfOk result (λ list. list.items ≡ in_order Sorted self.now.goal (S.Space.meaning self.now.below.now)) }
    {
        let mut list = self.below.list(self.goal, heap)?;
        list.retain(|alternative| Sortable.passes(*alternative));
        lift_all(&mut list, true);
        list.push(self.sort())?;
        Ok(list)
    }
}
