//! Trees over the nodes of a flow.

use crate::lists::{at, put};
use std::alloc::Global;
use tn_base::OutOfMemory;

/// No node, and no arc.
pub const NONE: u32 = u32::MAX;

/// A tree: for each node its parent, the arc between them and whether that leads up, and how deep the node hangs. The
/// children of a node are a list, in which each knows those beside it.
#[derive(Drop)]
pub struct Tree {
    parent: Vec<u32>,
    arc: Vec<u32>,
    rises: Vec<bool>,
    depth: Vec<u32>,
    child: Vec<u32>,
    next: Vec<u32>,
    before: Vec<u32>,
}

impl Tree {
    /// All nodes hang below a root, which is the node after them, without an arc.
    pub fn star(alloc: Global, nodes: u32) -> Result<Tree, OutOfMemory> {
        let count = nodes as usize + 1;
        let mut tree = Tree {
            parent: vec![in alloc; NONE; count]?,
            arc: vec![in alloc; NONE; count]?,
            rises: vec![in alloc; true; count]?,
            depth: vec![in alloc; 1; count]?,
            child: vec![in alloc; NONE; count]?,
            next: vec![in alloc; NONE; count]?,
            before: vec![in alloc; NONE; count]?,
        };
        put(&mut tree.depth, nodes, 0);
        for node in 0..nodes {
            tree.hang(node, nodes);
        }
        Ok(tree)
    }

    /// The parent of a node.
    pub fn parent(&self, node: u32) -> u32 {
        at(&self.parent, node, NONE)
    }

    /// The arc between a node and its parent.
    pub fn arc(&self, node: u32) -> u32 {
        at(&self.arc, node, NONE)
    }

    /// Whether that arc leads to the parent.
    pub fn rises(&self, node: u32) -> bool {
        at(&self.rises, node, true)
    }

    /// Writes the arc between a node and its parent.
    pub fn put_arc(&mut self, node: u32, arc: u32, rises: bool) {
        put(&mut self.arc, node, arc);
        put(&mut self.rises, node, rises);
    }

    /// Tells the depth of a node by that of its parent.
    pub fn settle_depth(&mut self, node: u32) {
        let above = at(&self.depth, self.parent(node), 0);
        put(&mut self.depth, node, above.wrapping_add(1));
    }

    /// Takes a node from the children of its parent.
    pub fn cut(&mut self, node: u32) {
        let next = at(&self.next, node, NONE);
        let before = at(&self.before, node, NONE);
        if before == NONE {
            let parent = self.parent(node);
            put(&mut self.child, parent, next);
        } else {
            put(&mut self.next, before, next);
        }
        put(&mut self.before, next, before);
    }

    /// Puts a node to the children of a parent.
    pub fn hang(&mut self, node: u32, parent: u32) {
        let first = at(&self.child, parent, NONE);
        put(&mut self.parent, node, parent);
        put(&mut self.before, node, NONE);
        put(&mut self.next, node, first);
        put(&mut self.before, first, node);
        put(&mut self.child, parent, node);
    }

    /// The first node beside one, or beside one above it, below `top`.
    fn beside(&self, node: u32, top: u32) -> u32 {
        let mut above = node;
        for _ in 0..self.parent.len() {
            if above == top {
                return NONE;
            }
            let next = at(&self.next, above, NONE);
            if next != NONE {
                return next;
            }
            above = self.parent(above);
        }
        NONE
    }

    /// The node after one in a walk over `top` and all below it, none at its end.
    pub fn after(&self, node: u32, top: u32) -> u32 {
        let child = at(&self.child, node, NONE);
        if child == NONE {
            self.beside(node, top)
        } else {
            child
        }
    }

    /// Where the ways from two nodes to the root meet.
    pub fn meet(&self, first: u32, second: u32) -> u32 {
        let mut first = first;
        let mut second = second;
        for _ in 0..self.parent.len() {
            if first == second {
                return first;
            }
            if at(&self.depth, first, 0) < at(&self.depth, second, 0) {
                second = self.parent(second);
            } else {
                first = self.parent(first);
            }
        }
        first
    }
}
