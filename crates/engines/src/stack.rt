//! A stack of results in a lent buffer.

ghost use Rattle.std.specs.Prelude.{◌≡◌, ◌+◌, ◌-◌, ◌<◌, ◌≤◌, [], ◌∷◌, drop, length, take, MatchOption};

/// Results at the back of a lent buffer, from `top` on. Unlike numbering's stack it grows down, so that a node's children lie
/// left first in one slice.
#[derive(Drop)]
pub(crate) struct Stack<'a, V> {
    values: &'a mut [V],
    top: usize,
    ghost within: { top ≤ length values.now },
}

impl<'a, V: Drop> Stack<'a, V> {
    ghost use Rattle.engines.specs.Stacks.{held};

    /// The empty stack at the back of a buffer.
    pub(crate) fn new(values: &'a mut [V]) -> Stack<'a, V>
        ensures empty { held result ≡ [] }
        ensures room { result.top ≡ length values.old }
    {
        let top = values.len();
        Stack { values, top }
    }

    /// The topmost results, the last laid first, if there are as many.
    pub(crate) fn peek(&self, count: usize) -> Option<&[V]>
        ensures { MatchOption result (length (held self.now) < count) (λ s. (count ≤ length (held self.now)) × (s.now ≡ take count (held self.now))) }
    {
        self.values[self.top..].get(..count)
    }

    /// Lays a result in the place of the topmost ones.
    pub(crate) fn replace(&mut self, count: usize, value: V)
        requires many { count ≤ length (held self.old) }
        requires room { 0 < self.old.top }
        ensures laid { held self.new ≡ value ∷ drop count (held self.old) }
        ensures room { self.old.top ≤ self.new.top + 1 }
    {
        self.top = self.top + count - 1;
        self.values[self.top] = value;
    }
}
