//! A list of nodes that is filled as far as it goes, while all of them are counted.

ghost use Rattle.std.specs.Prelude.{◌≡◌, ◌<◌, ◌^◌, ◌-◌, ◌∷◌, [], get_or, set};
ghost use Rattle.amqp_fields.specs.Nodes.{blank, held};
ghost use Rattle.amqp_fields.specs.Listing.{Grows, listing};

use crate::node::Node;

/// Puts a node at a place, where the list has it.
#[inline(always)]
#[tactic(auto, using(crate::proofs::Pushing::set_beyond))]
pub(crate) fn put(nodes: &mut [Node], place: u32, node: Node)
    ensures { nodes.new ≡ set nodes.old place node }
{
    let place = place as usize;
    if place < nodes.len() {
        nodes[place] = node;
    }
}

/// Puts one more node where the list has room for it, and returns how many there are.
#[inline(always)]
#[tactic(auto, unfolding(crate::specs::Listing::pushed))]
pub(crate) fn push(nodes: &mut [Node], count: u32, node: Node) -> u32
    ensures { Grows (listing nodes.old count) (listing nodes.new result) (node ∷ []) }
{
    put(nodes, count, node);
    count.wrapping_add(1)
}

/// How far a walk came.
#[derive(Clone, Copy)]
pub(crate) struct Step {
    /// How many bytes were passed.
    pub(crate) used: usize,

    /// How many nodes there are.
    pub(crate) count: u32,
}

/// What fills a table or an array.
#[derive(Clone, Copy)]
pub(crate) struct Filled {
    /// How many entries or values.
    pub(crate) items: usize,

    /// How many nodes there are.
    pub(crate) count: u32,
}

/// Says in the node of a table or an array, at its place, what fills it after the nodes that stood there when it was begun.
#[inline(always)]
#[tactic(auto, using(crate::proofs::Pushing::set_beyond))]
pub(crate) fn close(nodes: &mut [Node], place: u32, begun: u32, filled: Filled)
    requires few { filled.items < 2 ^ 32 }
    ensures { nodes.new
        ≡ set nodes.old place
        (held (get_or nodes.old place blank) (filled.count - begun) filled.items) }
{
    let place = place as usize;
    if place < nodes.len() {
        nodes[place] = Node {
            inside: filled.count.saturating_sub(begun),
            items: filled.items as u32,
            ..nodes[place]
        };
    }
}
