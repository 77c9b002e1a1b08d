//! A plan's line: its number, a space, its text and a line feed.

ghost use Rattle.std.specs.Prelude.{◌≡◌, ◌+◌, ◌*◌, ◌≤◌, length};
ghost use Rattle.texts.specs.Listed.{text};
ghost use Rattle.texts.specs.Texts.{line};

use crate::decimal::digits;
use crate::text::text_length;
use numbering::node::Node;

/// How long the line of a plan is.
#[tactic(auto, using(crate::proofs::Numerals::size_most, crate::proofs::Lines::line_size))]
pub(crate) fn line_length(number: u64, nodes: &[Node]) -> u128
    ensures same { result ≡ length (line number (text nodes.now)) }
    ensures few { result ≤ 22 + 15 * length nodes.now }
{
    digits(number) as u128 + text_length(nodes) + 2
}
