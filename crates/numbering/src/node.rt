use spaces::space::Alternative;

/// A node of a plan: a goal and the alternative that was chosen for it.
#[derive(Clone, Copy, PartialEq, Eq, Debug, Default)]
pub struct Node {
    pub goal: u16,
    pub alternative: Alternative,
}
