//! The finder: every search of a graph, and what may be read after it.

ghost use Rattle.std.specs.Prelude.{◌≡◌, ℕ, ◌+◌, ◌-◌, ◌*◌, ◌<◌, ◌≤◌, pos, ◌+ℤ◌, Some, [], length, set, slice_get, IfOk, IsSome};
ghost use Rattle.tn_base.specs.Walks.{arcs_among, is_admitted, is_looked_at, KeepsArcs, KeepsArcsEntering};
ghost use Rattle.tn_cycle.specs.Kept.{negated_if};
ghost use Rattle.tn_cycle.specs.Widths.{label_step, most_graph_nodes, most_label};

use crate::answer::{Labels, Path};
use crate::cell::Cell;
use crate::graphs::{Admitted, Looked, Turned};
use crate::grown::grow_labels;
use crate::kept_cycles::{Cycles, cycle_kept, relabel_all, relabel_among};
use crate::read::list_walk;
use crate::walks::{find_walks, sign};
use std::alloc::Global;
use std::marker::Model;
use tn_base::{Costs, OutOfMemory, TradeSet};

/// Searches graphs of a fixed number of nodes, and keeps what the last search found. The last node of a graph is its
/// null node, the others are trades.
///
/// `through` and `least_through` find a least cycle through a trade over labels, and leave labels that keep the arcs
/// with it; `least_to` and `least_from` find least walks over labels. `label_all`, `set_label` and `label_as` give the
/// labels that these begin with, and `relabel` gives those that `labels` would give. `labels` finds labels of a graph
/// of which nothing is known, or a negative cycle. Then `at` reads the nodes of a cycle; `label` reads labels;
/// `distance` reads the least cost for a node, and `walk` lists the nodes of its walk, which `at` reads. A search
/// forgets what the one before it found, but for the labels that it goes by. A graph that is searched has as many nodes
/// as the finder was made for. No search and no reader takes memory or refuses.
///
/// Contracts see what may be read: the nodes that `at` reads, the labels, the distances and their walks.
#[derive(Drop)]
pub struct Finder {
    nodes: u32,
    /// The cells that the last search left, and which nodes wait while one runs.
    row: Vec<Cell>,
    waits: Vec<bool>,
    /// The nodes that may be read, and how many; while a search runs, the nodes that wait.
    path: Vec<u32>,
    count: u32,
    /// The labels, and how many may be read.
    labels: Vec<i128>,
    labelled: u32,
    /// How many cells are those of least walks, whether these begin at the node asked for, and that node.
    reached: u32,
    turns: bool,
    end: u32,
    /// Where each node stands in the list of those that wait, while a search runs.
    places: Vec<u32>,
}

impl Model for Finder {
    ghost use Rattle.std.specs.Prelude.{vec_len};
    ghost use Rattle.tn_cycle.specs.Reading.{HasPlaces, Reading, finder_reading};

    ghost Value = { Reading };

    ghost view = { λ f. finder_reading f.nodes f.count f.path.items f.labelled f.labels.items f.reached f.turns f.end
        f.row.items };

    ghost invariant = { λ f. HasPlaces f.nodes f.count f.labelled f.reached (vec_len f.path) (vec_len f.labels)
        (vec_len f.row) (vec_len f.waits) (vec_len f.places) f.row.items };
}

impl Finder {
    ghost use Rattle.tn_cycle.specs.Reading.{ListsNoWalks, ReadsWalks, nothing};
    ghost use Rattle.tn_cycle.specs.Answers.{AnswersCycle, AnswersLabels, AnswersLeast, AnswersThrough, AreLabels, AreNear, LeadsAlong, LeadsLeast, cost_of, distance_in, is_labelled, label_in, walk_in};

    /// A finder for graphs of so many nodes, at least 1 and at most 16,385. Nothing may be read yet. It takes all memory
    /// that the searches need, and refuses where that isn't there.
    pub fn new(alloc: Global, nodes: u32) -> Result<Finder, OutOfMemory>
        requires some { 1 ≤ nodes }
        requires few { nodes ≤ most_graph_nodes }
        ensures { IfOk result (λ finder. finder ≡ nothing nodes) }
    {
        let cell = Cell {
            cost: None,
            inner_nodes: 0,
            next: 0,
        };
        let places = nodes as usize;
        Ok(Finder {
            nodes,
            row: vec![in alloc; cell; places + 1]?,
            waits: vec![in alloc; false; places + 1]?,
            path: vec![in alloc; 0; places + 2]?,
            count: 0,
            labels: vec![in alloc; 0; places]?,
            labelled: 0,
            reached: 0,
            turns: false,
            end: 0,
            places: vec![in alloc; 0; places + 1]?,
        })
    }

    /// The node at place `k`, counted from 0, of the cycle that the last search answered, which begins with the node
    /// asked for, or of the walk that was listed since.
    pub fn at(&self, k: u32) -> u32
        requires { k < length self.now.listed }
        ensures { slice_get self.now.listed k ≡ Some result }
    {
        self.path[k as usize]
    }

    /// The nodes that `at` reads, in order.
    pub fn listed(&self) -> &[u32]
        ensures { result.now ≡ self.now.listed }
    {
        &self.path[..self.count as usize]
    }

    /// Forgets all that was found, and gives each node the label 0.
    pub fn label_all(&mut self)
        ensures one_each { length self.new.labels ≡ self.old.nodes }
        ensures zero { (v : ℕ) → label_in self.new.labels v ≡ pos 0 }
        ensures none_listed { self.new.listed ≡ [] }
        ensures rest { ListsNoWalks self.old.nodes self.new }
    {
        self.count = 0;
        self.reached = 0;
        self.labels.fill(0);
        self.labelled = self.nodes;
    }

    /// Gives a node another label. There are labels.
    pub fn set_label(&mut self, v: u32, label: i128)
        requires { v < length self.old.labels }
        ensures { self.new ≡ record self.old { labels = set self.old.labels v label } }
    {
        self.labels[v as usize] = label;
    }

    /// Forgets all that was found, and gives each node the label that another finder, of as many nodes, has for it.
    pub fn label_as(&mut self, other: &Finder)
        requires same_nodes { other.now.nodes ≡ self.old.nodes }
        requires labelled { length other.now.labels ≡ self.old.nodes }
        ensures labels { self.new.labels ≡ other.now.labels }
        ensures none_listed { self.new.listed ≡ [] }
        ensures rest { ListsNoWalks self.old.nodes self.new }
    {
        self.count = 0;
        self.reached = 0;
        self.labels.copy_from_slice(&other.labels);
        self.labelled = self.nodes;
    }

    /// Finds a least cycle through a trade, of those that are sought, on the admitted trades, the null node and that
    /// trade. There are at most `64 * W` trades.
    fn cycle_through<C: Costs, const W: usize>(
        &mut self,
        costs: &C,
        node: u32,
        admitted: &TradeSet<W>,
        cycles: Cycles,
    ) -> Path
        requires sized { C.node_count costs.now ≡ self.old.nodes }
        requires wide { self.old.nodes ≤ 64 * W + 1 }
        requires trade { node + 1 < self.old.nodes }
        requires labelled { length self.old.labels ≡ self.old.nodes }
        requires near { AreNear most_label self.old.labels }
        requires keeps { KeepsArcs (arcs_among (is_labelled cycles (self.old.nodes - 1) node admitted.now)
            (C.arc costs.now)) (label_in self.old.labels) }
        ensures answer { AnswersThrough cycles (arcs_among (is_looked_at (self.old.nodes - 1) node admitted.now)
            (C.arc costs.now)) node self.new.listed result }
        ensures labelled { length self.new.labels ≡ self.old.nodes }
        ensures keeps { KeepsArcsEntering (arcs_among (is_looked_at (self.old.nodes - 1) node admitted.now)
            (C.arc costs.now)) node (label_in self.new.labels node +ℤ cost_of result) (label_in self.new.labels) }
        ensures near { (reach : ℕ) → AreNear reach self.old.labels
            → AreNear (reach + label_step self.old.nodes) self.new.labels }
        ensures rest { ListsNoWalks self.old.nodes self.new }
    {
        self.reached = 0;
        let null = self.nodes - 1;
        let among = Admitted {
            costs,
            null,
            admitted,
        };
        let found = cycle_kept(
            &Looked { among, node },
            cycles,
            &mut self.labels,
            &mut self.waits,
            &mut self.row,
            &mut self.path,
            &mut self.places,
        );
        self.count = found.arcs();
        found
    }

    /// Looks for a negative cycle through a trade that isn't admitted yet, on the admitted trades, the null node and
    /// that trade, over labels that keep the arcs among the admitted trades and the null node. A cycle that it answers
    /// is of least cost among the closed walks that meet the trade at their ends alone, has the fewest arcs among those
    /// of that cost, and has no node twice. There are at most `64 * W` trades.
    ///
    /// The new labels keep the arcs with the trade, whose own label is for the arcs that begin at it: those that end at
    /// it find that label and the cost of the cycle.
    pub fn through<C: Costs, const W: usize>(
        &mut self,
        costs: &C,
        node: u32,
        admitted: &TradeSet<W>,
    ) -> Path
        requires sized { C.node_count costs.now ≡ self.old.nodes }
        requires wide { self.old.nodes ≤ 64 * W + 1 }
        requires trade { node + 1 < self.old.nodes }
        requires labelled { length self.old.labels ≡ self.old.nodes }
        requires near { AreNear most_label self.old.labels }
        requires keeps { KeepsArcs (arcs_among (is_admitted (self.old.nodes - 1) admitted.now) (C.arc costs.now))
            (label_in self.old.labels) }
        ensures answer { AnswersCycle (arcs_among (is_looked_at (self.old.nodes - 1) node admitted.now)
            (C.arc costs.now)) node self.new.listed result }
        ensures labelled { length self.new.labels ≡ self.old.nodes }
        ensures keeps { KeepsArcsEntering (arcs_among (is_looked_at (self.old.nodes - 1) node admitted.now)
            (C.arc costs.now)) node (label_in self.new.labels node +ℤ cost_of result) (label_in self.new.labels) }
        ensures near { (reach : ℕ) → AreNear reach self.old.labels
            → AreNear (reach + label_step self.old.nodes) self.new.labels }
        ensures rest { ListsNoWalks self.old.nodes self.new }
    {
        self.cycle_through(costs, node, admitted, Cycles::Negative)
    }

    /// Finds a least cycle through a node, whatever it costs, on the admitted trades, the null node and that node, over
    /// labels that keep the arcs among all of these; None where no closed walk leads through the node. The cycle and
    /// the new labels are as `through` answers them.
    pub fn least_through<C: Costs, const W: usize>(
        &mut self,
        costs: &C,
        node: u32,
        admitted: &TradeSet<W>,
    ) -> Path
        requires sized { C.node_count costs.now ≡ self.old.nodes }
        requires wide { self.old.nodes ≤ 64 * W + 1 }
        requires trade { node + 1 < self.old.nodes }
        requires labelled { length self.old.labels ≡ self.old.nodes }
        requires near { AreNear most_label self.old.labels }
        requires keeps { KeepsArcs (arcs_among (is_looked_at (self.old.nodes - 1) node admitted.now) (C.arc costs.now))
            (label_in self.old.labels) }
        ensures answer { AnswersLeast (arcs_among (is_looked_at (self.old.nodes - 1) node admitted.now)
            (C.arc costs.now)) node self.new.listed result }
        ensures labelled { length self.new.labels ≡ self.old.nodes }
        ensures keeps { KeepsArcsEntering (arcs_among (is_looked_at (self.old.nodes - 1) node admitted.now)
            (C.arc costs.now)) node (label_in self.new.labels node +ℤ cost_of result) (label_in self.new.labels) }
        ensures near { (reach : ℕ) → AreNear reach self.old.labels
            → AreNear (reach + label_step self.old.nodes) self.new.labels }
        ensures rest { ListsNoWalks self.old.nodes self.new }
    {
        self.cycle_through(costs, node, admitted, Cycles::All)
    }

    /// Gives each node the label that `labels` would give on the admitted trades and the null node: at most 0, and at
    /// least minus the largest size of a cost times one less than the number of nodes. The labels at hand keep the arcs
    /// among these, so that no cycle is negative. There are at most `64 * W` trades.
    pub fn relabel<C: Costs, const W: usize>(&mut self, costs: &C, admitted: &TradeSet<W>)
        requires sized { C.node_count costs.now ≡ self.old.nodes }
        requires wide { self.old.nodes ≤ 64 * W + 1 }
        requires labelled { length self.old.labels ≡ self.old.nodes }
        requires near { AreNear most_label self.old.labels }
        requires keeps { KeepsArcs (arcs_among (is_admitted (self.old.nodes - 1) admitted.now) (C.arc costs.now))
            (label_in self.old.labels) }
        ensures labels { AreLabels self.old.nodes (arcs_among (is_admitted (self.old.nodes - 1) admitted.now)
            (C.arc costs.now)) self.new.labels }
        ensures none_listed { self.new.listed ≡ [] }
        ensures rest { ListsNoWalks self.old.nodes self.new }
    {
        self.count = 0;
        self.reached = 0;
        let null = self.nodes - 1;
        relabel_among(
            &Admitted {
                costs,
                null,
                admitted,
            },
            &mut self.labels,
            &mut self.waits,
            &mut self.row,
            &mut self.path,
            &mut self.places,
        );
    }

    /// The same on the whole graph.
    fn relabel_whole<C: Costs>(&mut self, costs: &C)
        requires sized { C.node_count costs.now ≡ self.old.nodes }
        requires labelled { length self.old.labels ≡ self.old.nodes }
        requires near { AreNear most_label self.old.labels }
        requires keeps { KeepsArcs (C.arc costs.now) (label_in self.old.labels) }
        ensures labels { AreLabels self.old.nodes (C.arc costs.now) self.new.labels }
        ensures none_listed { self.new.listed ≡ [] }
        ensures rest { ListsNoWalks self.old.nodes self.new }
    {
        self.count = 0;
        self.reached = 0;
        relabel_all(
            costs,
            &mut self.labels,
            &mut self.waits,
            &mut self.row,
            &mut self.path,
            &mut self.places,
        );
    }

    /// Looks for labels: a number for each node, such that no arc costs less than the label of its end less that of its
    /// begin. There are some exactly where no cycle is negative. Each is at most 0, and at least minus the largest size
    /// of a cost times one less than the number of nodes; where arcs at one node are dearer than the others, at least
    /// minus twice their largest size and the same product of the others'. Otherwise it answers a negative cycle without
    /// a node twice, which begins with the null node where it has that, and with its lowest node where it doesn't.
    pub fn labels<C: Costs>(&mut self, costs: &C) -> Labels
        requires sized { C.node_count costs.now ≡ self.old.nodes }
        ensures answer { AnswersLabels self.old.nodes (C.arc costs.now) self.new result }
        ensures rest { ListsNoWalks self.old.nodes self.new }
    {
        self.reached = 0;
        let found = grow_labels(
            costs,
            &mut self.labels,
            &mut self.waits,
            &mut self.row,
            &mut self.path,
            &mut self.places,
        );
        self.count = found.arcs();
        match found {
            Path::None => {
                self.labelled = self.nodes;
                self.relabel_whole(costs);
                Labels::Feasible
            }
            Path::Cycle { cost, length } => {
                self.labelled = 0;
                Labels::Negative { cost, length }
            }
        }
    }

    /// The label of a node, where the last search found labels.
    pub fn label(&self, v: u32) -> i128
        requires { v < length self.now.labels }
        ensures { slice_get self.now.labels v ≡ Some result }
    {
        self.labels[v as usize]
    }

    /// Finds the least walks to a node, which are said to be turned round or not. Where they are, the negatives of the
    /// labels keep the arcs.
    fn least_walks<C: Costs>(&mut self, costs: &C, node: u32, turns: bool)
        requires sized { C.node_count costs.now ≡ self.old.nodes }
        requires inside { node < self.old.nodes }
        requires labelled { length self.old.labels ≡ self.old.nodes }
        requires near { AreNear most_label self.old.labels }
        requires keeps { KeepsArcs (C.arc costs.now) (λ v. negated_if turns (label_in self.old.labels v)) }
        ensures walks { (v : ℕ) → v < self.old.nodes
            → LeadsAlong turns (C.arc costs.now) v node (walk_in self.new v) (distance_in self.new v) }
        ensures rest { ReadsWalks self.old.nodes self.new }
    {
        self.count = 0;
        self.labelled = 0;
        sign(&mut self.labels, turns);
        find_walks(
            costs,
            node,
            &self.labels,
            &mut self.waits,
            &mut self.row,
            &mut self.path,
            &mut self.places,
        );
        self.reached = self.nodes;
        self.turns = turns;
        self.end = node;
    }

    /// Finds, from each node, a walk to the given one of least cost, in which no node stands twice but for the two
    /// ends, where they are one: a walk from the node to itself has at least one arc too. The labels at hand keep the
    /// arcs, so that no cycle is negative.
    pub fn least_to<C: Costs>(&mut self, costs: &C, node: u32)
        requires sized { C.node_count costs.now ≡ self.old.nodes }
        requires inside { node < self.old.nodes }
        requires labelled { length self.old.labels ≡ self.old.nodes }
        requires near { AreNear most_label self.old.labels }
        requires keeps { KeepsArcs (C.arc costs.now) (label_in self.old.labels) }
        ensures walks { (v : ℕ) → v < self.old.nodes
            → LeadsLeast (C.arc costs.now) v node (walk_in self.new v) (distance_in self.new v) }
        ensures rest { ReadsWalks self.old.nodes self.new }
    {
        self.least_walks(costs, node, false);
    }

    /// Finds, to each node, a walk from the given one of least cost, in which no node stands twice but for the two
    /// ends, where they are one: a walk from the node to itself has at least one arc too. The labels at hand keep the
    /// arcs, so that no cycle is negative.
    pub fn least_from<C: Costs>(&mut self, costs: &C, node: u32)
        requires sized { C.node_count costs.now ≡ self.old.nodes }
        requires inside { node < self.old.nodes }
        requires labelled { length self.old.labels ≡ self.old.nodes }
        requires near { AreNear most_label self.old.labels }
        requires keeps { KeepsArcs (C.arc costs.now) (label_in self.old.labels) }
        ensures walks { (v : ℕ) → v < self.old.nodes
            → LeadsLeast (C.arc costs.now) node v (walk_in self.new v) (distance_in self.new v) }
        ensures rest { ReadsWalks self.old.nodes self.new }
    {
        self.least_walks(&Turned { costs }, node, true);
    }

    /// The least cost of a walk between the node and the one asked for, None where there is no walk. The last search
    /// was for least walks.
    pub fn distance(&self, v: u32) -> Option<i128>
        requires { v < length self.now.distances }
        ensures { result ≡ distance_in self.now v }
    {
        self.row[v as usize].cost
    }

    /// Lists the nodes of the node's least walk in order, its two ends among them, and gives their number; `at` reads
    /// them. The last search was for least walks, and the node has one.
    pub fn walk(&mut self, v: u32) -> u32
        requires inside { v < length self.old.distances }
        requires reached { IsSome (distance_in self.old v) }
        ensures listed { self.new ≡ record self.old { listed = walk_in self.old v } }
        ensures count { result ≡ length self.new.listed }
    {
        self.count = list_walk(&self.row, v, self.end, self.turns, &mut self.path);
        self.count
    }
}
