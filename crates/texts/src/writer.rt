//! A text as it is written.
//!
//! A plan's text is written in one pass over the plan's list, with no stack: a closing mark that is still
//! due is a byte of the text that is not yet in its place, so it waits at the back of the text's own
//! part of the buffer, the next one first.

ghost use Rattle.std.specs.Prelude.{◌≡◌, ◌+◌, ◌≤◌, [], ◌∷◌, decimal, length};
ghost use Rattle.std.specs.List.{between};
ghost use Rattle.texts.specs.Layout.{Turned, closing, laid, own_size};
ghost use Rattle.texts.specs.Listed.{text as text_of};
ghost use Rattle.texts.specs.Texts.{label as label_of, line as line_of};

use crate::decimal::digits;
use crate::text::text_length;
use numbering::node::Node;

/// A lent buffer, and the place up to which it has been written.
#[derive(Drop)]
pub(crate) struct Writer<'a> {
    pub(crate) out: &'a mut [u8],
    pub(crate) at: usize,
}

impl<'a> Writer<'a> {
    ghost use Rattle.texts.specs.Writers.{HasSpace, Writes};

    /// A buffer in which nothing has been written.
    pub(crate) fn new(out: &'a mut [u8]) -> Writer<'a>
        ensures same_buffer { result.out.ghost_name ≡ out.entry.ghost_name }
        ensures at { result.at ≡ 0 }
        ensures out { result.out.now ≡ out.old }
    {
        Writer { out, at: 0 }
    }

    fn byte(&mut self, byte: u8)
        requires { HasSpace self.old (byte ∷ []) }
        ensures { Writes self.old self.new (byte ∷ []) }
    {
        self.out[self.at] = byte;
        self.at += 1;
    }

    fn decimal(&mut self, number: u64)
        requires { HasSpace self.old (decimal number) }
        ensures { Writes self.old self.new (decimal number) }
    {
        // Most numerals have one digit.
        if number < 10 {
            self.byte(b'0' + number as u8);
            return;
        }
        let end = self.at + digits(number);
        let mut left = number;
        // By index, since no proof knows what a loop over `iter_mut().rev()` has written.
        for index in (self.at + 1..end).rev() {
            self.out[index] = b'0' + (left % 10) as u8;
            left /= 10;
        }
        // The leading digit needs no division.
        self.out[self.at] = b'0' + left as u8;
        self.at = end;
    }

    /// Writes a node's own part.
    #[tactic(auto, using(crate::proofs::Writers::writes_append))]
    fn label(&mut self, node: Node)
        requires { HasSpace self.old (label_of node) }
        ensures { Writes self.old self.new (label_of node) }
    {
        self.byte(node.alternative.kind.letter());
        self.decimal(node.alternative.tag as u64);
        self.byte(b'@');
        self.decimal(node.goal as u64);
    }

    /// Moves the marks due up to the first comma here from `top`, and gives their number.
    fn close(&mut self, top: usize, end: usize) -> usize
        requires apart { self.old.at ≤ top }
        requires within { top ≤ end }
        requires whole { end ≤ length self.old.out.now }
        ensures closed { result ≡ length (closing (between top end self.old.out.now)) }
        ensures short { top + result ≤ end }
        ensures bytes { Writes self.old self.new (closing (between top end self.old.out.now)) }
    {
        // One by one, since they are few.
        for moved in 0..end - top {
            let mark = self.out[top + moved];
            self.byte(mark);
            if mark == b',' {
                return moved + 1;
            }
        }
        end - top
    }

    /// Writes a node, where the marks due stand from `top` to `end`, and gives where they begin then.
    fn node(&mut self, node: Node, top: usize, end: usize) -> usize
        requires room { self.old.at + own_size node ≤ top }
        requires within { top ≤ end }
        requires whole { end ≤ length self.old.out.now }
        ensures same_buffer { self.new.out.ghost_name ≡ self.old.out.ghost_name }
        ensures long { length self.new.out.now ≡ length self.old.out.now }
        ensures turned { Turned node self.old.at top end self.old.out.now self.new.out.now self.new.at result }
    {
        self.label(node);
        let arity = node.alternative.kind.arity();
        if arity == 0 {
            return top + self.close(top, end);
        }
        self.byte(b'(');
        self.out[top - 1] = b')';
        if arity == 1 {
            return top - 1;
        }
        self.out[top - 2] = b',';
        top - 2
    }

    /// Writes the nodes of a list one by one, whose text is `len` bytes long.
    #[tactic(auto, using(crate::proofs::Forests::length_text, crate::proofs::Turns::size_more, crate::proofs::Turns::text_start))]
    fn nodes(&mut self, nodes: &[Node], len: usize)
        requires len { len ≡ length (text_of nodes.now) }
        requires room { HasSpace self.old (text_of nodes.now) }
        ensures { Writes self.old self.new (text_of nodes.now) }
    {
        let end = self.at + len;
        let mut top = end;
        for node in nodes {
            top = self.node(*node, top, end);
        }
        // The marks of a list that is no plan's may be left over: they stand where they belong.
        self.at = end;
    }

    /// Writes the text of a list, which is `len` bytes long.
    pub(crate) fn text(&mut self, nodes: &[Node], len: usize)
        requires len { len ≡ length (text_of nodes.now) }
        requires room { HasSpace self.old (text_of nodes.now) }
        ensures { Writes self.old self.new (text_of nodes.now) }
    {
        // By a writer of its own, whose place can stay in a register.
        let mut writer = Writer {
            out: &mut *self.out,
            at: self.at,
        };
        writer.nodes(nodes, len);
        self.at = writer.at;
    }

    /// Writes the line of a plan.
    #[tactic(auto, using(crate::proofs::Lines::line_size))]
    pub(crate) fn line(&mut self, number: u64, nodes: &[Node])
        requires { HasSpace self.old (line_of number (text_of nodes.now)) }
        ensures { Writes self.old self.new (line_of number (text_of nodes.now)) }
    {
        self.decimal(number);
        self.byte(b' ');
        self.text(nodes, text_length(nodes) as usize);
        self.byte(b'\n');
    }
}
