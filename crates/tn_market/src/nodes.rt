//! Nodes as they are said.

ghost use Rattle.std.specs.Prelude.{◌≡◌, map, IfOk};
ghost use Rattle.tn_market.specs.Supported.{said_node};

use std::alloc::Global;
use tn_base::OutOfMemory;
use tn_model::Nodes;

/// A node as it is said: the null node as none.
fn said_node(node: u32, null: u32) -> Option<u32>
    ensures { result ≡ said_node null node }
{
    if node == null { None } else { Some(node) }
}

/// Nodes as they are said, in their order: the null node as none. It fails only where memory runs out.
pub fn said_nodes(alloc: Global, nodes: &[u32], null: u32) -> Result<Nodes, OutOfMemory>
    ensures { IfOk result (λ said. said ≡ map (said_node null) nodes.now) }
{
    let mut said = Vec::with_capacity(alloc, nodes.len())?;
    for node in nodes {
        said.push(said_node(*node, null))?;
    }
    Ok(Nodes::from_vec(said))
}
