//! Searches of any graph by the costs of its arcs: least cycles, numbers that keep the arcs, least walks.
//! Costs may be negative.
//!
//! One search finds, from every node, the walk to a given node of least cost and, of those, one with the fewest arcs.
//! It goes by labels that keep the arcs (Dijkstra 1959). Of the nodes that wait it settles the one for which the cost
//! of its walk and its label, and then the number of arcs, come first. A settled node knows that cost, the number of
//! nodes inside the walk, and the node that comes next; the nodes that come next are a least walk. Where labels are
//! kept from search to search, one node more takes little work or none.
//!
//! A cycle through a node is a walk from it to itself, and the search for one ends once no waiting node can lead to a
//! better one. Labels of a graph of which nothing is known grow by one node after another, and the first negative cycle
//! through the node that is added ends that. Labels at most 0 are found by the walks to a sink, a node that all others
//! have an arc of cost 0 to. Walks from a node are walks to it in the graph turned round, where the negatives of the
//! labels keep the arcs.
#![tactic(auto)]

mod answer;
mod cell;
mod differences;
mod finder;
mod graphs;
mod grown;
mod kept;
mod kept_cycles;
mod labels;
mod queue;
mod read;
mod walks;

pub use answer::{Labels, Path};
pub use differences::{label_less, write_differences};
pub use finder::Finder;
pub use graphs::Admitted;
