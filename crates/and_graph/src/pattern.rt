//! What a model of the solver says of the leaves.
use crate::node::Node;
use bit_rows::BitRow;
use std::alloc::{AllocError, Global};

/// A leaf and its value.
#[derive(Clone, Copy, PartialEq, Eq, Debug)]
pub struct LeafValue {
    /// The leaf's node.
    pub leaf: u32,
    /// Its value.
    pub value: bool,
}

/// Values of leaves under which two literals differ, whatever the other leaves are. It is a hint: no clause says so, and who
/// uses it simulates it.
#[derive(Drop)]
pub struct Pattern {
    /// The leaves of the cone, none of them twice.
    pub leaves: Vec<LeafValue>,
}

// Whether a node is a leaf.
fn is_leaf(nodes: &[Node], n: u32) -> bool {
    n > 0 && (n as usize) < nodes.len() && nodes[n as usize].left.var() == n
}

// The values of those members that are leaves.
pub(crate) fn pattern_of(
    alloc: Global,
    nodes: &[Node],
    members: &[u32],
    row: &BitRow,
) -> Result<Pattern, AllocError> {
    let mut leaves = Vec::new(alloc);
    for j in 0..row.len() {
        if (j as usize) < members.len() && is_leaf(nodes, members[j as usize]) {
            leaves.push(LeafValue {
                leaf: members[j as usize],
                value: row.get(j),
            })?;
        }
    }
    Ok(Pattern { leaves })
}
