//! Nodes with those inside them.

ghost use Rattle.std.specs.Prelude.{◌≡◌, ◌-◌, length, drop, None, IfSome};
ghost use Rattle.amqp_fields_write.specs.Made.{own_index};
ghost use Rattle.amqp_fields.specs.Nodes.{NoneAlone, PassesEnd, StandsFirst};

use amqp_fields::Node;

/// The first of some nodes, those inside it, and the others. There is nothing where no nodes are left, or those inside it would
/// pass the end.
#[inline(always)]
pub(crate) fn first_group(nodes: &[Node]) -> Option<(&Node, &[Node], &[Node])>
    ensures found { IfSome result
        (λ group. StandsFirst nodes.now group.0.now group.1.now group.2.now) }
    ensures none { result ≡ None → PassesEnd nodes.now }
{
    match nodes {
        [] => None,
        [node, rest @ ..] => {
            let count = node.inside as usize;
            if count > rest.len() {
                return None;
            }
            let (inside, others) = rest.split_at(count);
            Some((node, inside, others))
        }
    }
}

/// The same where nothing lies inside the first one; there is nothing where something does.
#[inline(always)]
pub(crate) fn first_alone(nodes: &[Node]) -> Option<(&Node, &[Node], &[Node])>
    ensures found { IfSome result
        (λ group. StandsFirst nodes.now group.0.now group.1.now group.2.now) }
    ensures none { result ≡ None → NoneAlone nodes.now }
{
    match nodes {
        [] => None,
        [node, others @ ..] => {
            if node.inside != 0 {
                return None;
            }
            Some((node, &[], others))
        }
    }
}

/// The nodes after so many.
#[inline(always)]
pub(crate) fn nodes_from(nodes: &[Node], count: usize) -> &[Node]
    ensures { result.now ≡ drop count nodes.now }
{
    if count < nodes.len() {
        &nodes[count..]
    } else {
        &[]
    }
}

/// Which one of all nodes the first of these is, by the place where they end.
#[inline(always)]
pub(crate) fn index_of(end: usize, nodes: &[Node]) -> usize
    ensures { result ≡ end - length nodes.now }
{
    end.saturating_sub(nodes.len())
}

/// Which one of all nodes it is that has these nodes inside it, by the place where they end.
#[inline(always)]
pub(crate) fn own_index(end: usize, inside: &[Node]) -> usize
    ensures { result ≡ own_index end inside.now }
{
    index_of(end, inside).saturating_sub(1)
}
