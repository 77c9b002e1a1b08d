ghost use Rattle.std.specs.Prelude.{◌≡◌};
ghost use Rattle.numbering.specs.Refusals.{number as number_of, place as place_of};

use std::fmt;
use thiserror::Error;

/// Why a call on a space is refused. A place is how many nodes of the list fit.
#[derive(Clone, Copy, PartialEq, Eq, Debug, Error)]
pub enum Refusal {
    /// The space has no goals.
    NoGoals,
    /// The tally buffer has fewer entries than there are goals.
    TalliesShort,
    /// Some goal has more than 10^18 plans.
    TooManyPlans,
    /// The largest plan has more than 1,024 nodes.
    PlansTooLarge,
    /// The work buffer has fewer entries than the largest plan has nodes.
    WorkShort,
    /// The plan buffer has fewer entries than the largest plan has nodes.
    PlanShort,
    /// The space has no plan with this number.
    NoSuchPlan,
    /// The node at the place is for another goal than the one due.
    OtherGoal(usize),
    /// The node at the place is for the goal due, but is no alternative of it that has a plan.
    NoLiveAlternative(usize),
    /// The list ends at the place, where a goal is still due.
    ListEnds(usize),
    /// The plan is complete at the place, where a node follows.
    NodesFollow(usize),
    /// The text does not fit into its buffer.
    TextShort,
}

impl Refusal {
    /// The refusal's number. A method, as at the refusals of which some have none, so that all are asked alike.
    pub fn number(self) -> u8
        ensures { result ≡ number_of self }
    {
        match self {
            Refusal::NoGoals => 20,
            Refusal::TalliesShort => 21,
            Refusal::TooManyPlans => 22,
            Refusal::PlansTooLarge => 23,
            Refusal::WorkShort => 24,
            Refusal::PlanShort => 25,
            Refusal::NoSuchPlan => 40,
            Refusal::OtherGoal(_) => 41,
            Refusal::NoLiveAlternative(_) => 42,
            Refusal::ListEnds(_) => 43,
            Refusal::NodesFollow(_) => 44,
            Refusal::TextShort => 48,
        }
    }

    /// The place in the list, where the refusal is of a list.
    pub fn place(self) -> Option<usize>
        ensures { result ≡ place_of self }
    {
        match self {
            Refusal::OtherGoal(place) => Some(place),
            Refusal::NoLiveAlternative(place) => Some(place),
            Refusal::ListEnds(place) => Some(place),
            Refusal::NodesFollow(place) => Some(place),
            _ => None,
        }
    }

    /// The refusal in plain words.
    pub fn reason(self) -> &'static str {
        match self {
            Refusal::NoGoals => "the space has no goals",
            Refusal::TalliesShort => "the tally buffer is shorter than the number of goals",
            Refusal::TooManyPlans => "some goal has more than 10^18 plans",
            Refusal::PlansTooLarge => "the largest plan has more than 1,024 nodes",
            Refusal::WorkShort => "the work buffer is shorter than the largest plan",
            Refusal::PlanShort => "the plan buffer is shorter than the largest plan",
            Refusal::NoSuchPlan => "there is no plan with this number",
            Refusal::OtherGoal(_) => "the node's goal is not the one due",
            Refusal::NoLiveAlternative(_) =>
                "the node is no alternative of the goal due that has a plan",
            Refusal::ListEnds(_) => "the list ends before the plan is complete",
            Refusal::NodesFollow(_) => "nodes follow a complete plan",
            Refusal::TextShort => "the text buffer is shorter than the text",
        }
    }
}

/// The reason.
impl fmt::Display for Refusal {
    fn fmt<W: fmt::Write>(&self, f: &mut fmt::Formatter<W>) -> fmt::Result {
        f.write_str(self.reason())
    }
}
