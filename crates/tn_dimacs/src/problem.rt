//! Problems of circulations.

/// An arc from its tail to its head, over which from 0 to so many units flow, each of which costs as much.
#[derive(Clone, Copy)]
pub struct Arc {
    pub tail: u32,
    pub head: u32,
    pub capacity: u32,
    pub cost: i64,
}

/// Arcs between so many nodes.
#[derive(Drop)]
pub struct Problem {
    pub nodes: u32,
    pub arcs: Vec<Arc>,
}
