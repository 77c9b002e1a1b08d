//! The layer that tells apart goals in any order and sorted ones.

ghost use Rattle.std.specs.Prelude.{◌≡◌, ◌<◌, ◌≤◌, MatchOption};
ghost use Rattle.spaces.specs.Orders.{KeepsOrders, asks, ordered, place};
ghost use Rattle.spaces.specs.OrdersLemmas.{ordered_lawful};

pub use crate::ordered_goal::Sortable;
use crate::ordered_goal::{OrderedGoal, placed};
use crate::space::{Alternative, Space};
use std::alloc::{AllocError, Global};

/// The order in which a plan's rows are wished for.
#[derive(Clone, Copy, PartialEq, Eq, Debug)]
pub enum Order {
    Any,
    Sorted,
}

impl Order {
    /// Whether the rows have to be sorted.
    pub fn is_sorted(self) -> bool
        ensures { result ≡ asks self }
    {
        self == Order::Sorted
    }
}

/// Each goal of the space below twice: goal `2g` is `g` in any order, and goal `2g + 1` is `g` sorted.
///
/// It has no goals over a space with more than 2,048.
#[derive(Drop)]
pub struct OrderLayer<S> {
    below: S,
    wish: Order,
}

impl<S: Space> OrderLayer<S> {
    /// The layer over a space. Every output of a sorted goal of it is sorted, and a child that has to be sorted is a sorted goal.
    pub fn new(below: S, wish: Order) -> OrderLayer<S>
        ensures below_value { (result.below ≡ below) × (result.wish ≡ wish) }
        ensures keeps_orders { KeepsOrders (ordered (S.Space.meaning below) wish) }
    {
        OrderLayer { below, wish }
    }

    /// The goal below that a goal of the layer stands for, with its order: none past the last goal.
    fn below_goal(&self, goal: u16) -> Option<OrderedGoal<'_, S>>
        ensures { MatchOption result ((ordered (S.Space.meaning self.now.below) self.now.wish).goals ≤ goal) (λ o. (goal < (ordered (S.Space.meaning self.now.below) self.now.wish).goals) × (goal ≡ place (asks o.order) o.goal) × (o.below.now ≡ self.now.below)) }
    {
        if goal >= self.goals() {
            return None;
        }
        let order = if goal % 2 == 1 {
            Order::Sorted
        } else {
            Order::Any
        };
        Some(OrderedGoal {
            below: &self.below,
            goal: goal / 2,
            order,
        })
    }
}

impl<S: Space> Space for OrderLayer<S> {
    ghost meaning = { λ s. ordered (S.Space.meaning s.below) s.wish };

    ghost lawful = { λ s. ordered_lawful _ _ (S.Space.lawful s.below) };

    fn goals(&self) -> u16 {
        let goals = self.below.goals();
        if goals <= 2048 { 2 * goals } else { 0 }
    }

    fn root(&self) -> u16 {
        if self.goals() == 0 {
            0
        } else {
            placed(self.below.root(), self.wish.is_sorted())
        }
    }

    fn width(&self, goal: u16) -> u32 {
        match self.below_goal(goal) {
            Some(below) => below.width(),
            None => 0,
        }
    }

    fn alternative(&self, goal: u16, index: u32) -> Option<Alternative> {
        self.below_goal(goal)?.alternative(index)
    }

    fn list(&self, goal: u16, heap: Global) -> Result<Vec<Alternative>, AllocError> {
        match self.below_goal(goal) {
            Some(below) => below.list(heap),
            None => Ok(Vec::new(heap)),
        }
    }
}
