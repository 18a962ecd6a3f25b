//! What a search knows of a node.

/// What the search knows of a node: the least cost of a walk from it to the end, None where there is no walk yet; the
/// number of nodes inside that walk; and the node that comes next.
#[derive(Clone, Copy)]
pub struct Cell {
    pub cost: Option<i128>,
    pub inner_nodes: u32,
    pub next: u32,
}
