//! Problems read from text in the form of DIMACS. What is read is said by no clause, and is tried by stored runs.

use crate::problem::{Arc, Problem};
use std::alloc::Global;
use std::collections::BTreeSet;
use std::str::SplitAsciiWhitespace;
use thiserror::Error;

/// Why a text isn't read.
#[derive(Clone, Copy, Debug, PartialEq, Eq, Error, Drop)]
pub enum Fault {
    /// The line begins with no letter of the form.
    #[error("a line begins with c, p, n or a")]
    NoLine,
    /// The problem isn't stated first, once, and as one of least cost.
    #[error("'p min NODES ARCS' is wanted once, before all nodes and arcs")]
    NoProblem,
    /// A line of a node isn't one.
    #[error("'n NODE SUPPLY' is wanted")]
    NoNode,
    /// A node has a supply.
    #[error("a supply other than 0 isn't served: only circulations are")]
    Supply,
    /// A line of an arc isn't one.
    #[error("'a TAIL HEAD LOW CAPACITY COST' is wanted, of whole numbers")]
    NoArc,
    /// An arc has a lower bound.
    #[error("a lower bound other than 0 isn't served")]
    Low,
    /// An arc leads from a node to itself.
    #[error("an arc from a node to itself isn't served")]
    Loop,
    /// There are more arcs or fewer than were stated.
    #[error("the number of arcs isn't the one that was stated")]
    Count,
    /// Memory ran out.
    #[error("memory ran out")]
    OutOfMemory,
}

/// Where a text stops to be a problem that is served, and why.
#[derive(Clone, Copy, Debug, PartialEq, Eq, Drop)]
pub struct Refusal {
    pub line: usize,
    pub fault: Fault,
}

/// What was read so far.
#[derive(Drop)]
struct Reader {
    problem: Problem,
    /// How many nodes and arcs were stated, None before that.
    stated: Option<(u32, u64)>,
    /// How many arcs were read.
    count: u64,
    /// Which pairs of nodes an arc joins, the lesser node first.
    joined: BTreeSet<(u32, u32)>,
}

/// The next word as a whole number.
fn number(words: &mut SplitAsciiWhitespace<'_>) -> Option<i64> {
    words.next()?.parse::<i64>().ok()
}

/// The next word as a number of a node, counted from 0.
fn node(words: &mut SplitAsciiWhitespace<'_>, nodes: u32) -> Option<u32> {
    let named = words.next()?.parse::<u32>().ok()?;
    if named == 0 || nodes < named {
        None
    } else {
        Some(named - 1)
    }
}

/// The arc of a line, and its lower bound.
fn arc_of(words: &mut SplitAsciiWhitespace<'_>, nodes: u32) -> Option<(Arc, i64)> {
    let tail = node(words, nodes)?;
    let head = node(words, nodes)?;
    let low = number(words)?;
    let capacity = words.next()?.parse::<u32>().ok()?;
    let cost = number(words)?;
    if words.next().is_some() {
        return None;
    }
    let arc = Arc {
        tail,
        head,
        capacity,
        cost,
    };
    Some((arc, low))
}

impl Reader {
    /// A reader that has read nothing.
    fn new(alloc: Global) -> Reader {
        Reader {
            problem: Problem {
                nodes: 0,
                arcs: Vec::new(alloc),
            },
            stated: None,
            count: 0,
            joined: BTreeSet::new(alloc),
        }
    }

    /// Reads how many nodes and arcs there are.
    fn read_problem(&mut self, words: &mut SplitAsciiWhitespace<'_>) -> Result<(), Fault> {
        let is_least = words.next() == Some("min");
        let nodes = words.next().and_then(|word| word.parse::<u32>().ok());
        let arcs = words.next().and_then(|word| word.parse::<u64>().ok());
        match (nodes, arcs) {
            (Some(nodes), Some(arcs)) if is_least && self.stated.is_none() => {
                self.problem.nodes = nodes;
                self.stated = Some((nodes, arcs));
                Ok(())
            }
            _ => Err(Fault::NoProblem),
        }
    }

    /// Reads the supply of a node.
    fn read_node(&mut self, words: &mut SplitAsciiWhitespace<'_>) -> Result<(), Fault> {
        let Some((nodes, _)) = self.stated else {
            return Err(Fault::NoProblem);
        };
        match (node(words, nodes), number(words), words.next()) {
            (Some(_), Some(0), None) => Ok(()),
            (Some(_), Some(_), None) => Err(Fault::Supply),
            _ => Err(Fault::NoNode),
        }
    }

    /// Reads an arc. One between two nodes that another one joins gets a node between: its first half costs what it costs.
    fn read_arc(&mut self, words: &mut SplitAsciiWhitespace<'_>) -> Result<(), Fault> {
        let Some((nodes, _)) = self.stated else {
            return Err(Fault::NoProblem);
        };
        let Some((arc, low)) = arc_of(words, nodes) else {
            return Err(Fault::NoArc);
        };
        if low != 0 {
            return Err(Fault::Low);
        }
        if arc.tail == arc.head {
            return Err(Fault::Loop);
        }
        self.count = self.count.saturating_add(1);
        let pair = (arc.tail.min(arc.head), arc.tail.max(arc.head));
        let is_first = self.joined.insert(pair).map_err(|_| Fault::OutOfMemory)?;
        if is_first {
            self.add(arc)
        } else {
            let between = self.problem.nodes;
            self.problem.nodes = between.saturating_add(1);
            self.add(Arc {
                head: between,
                ..arc
            })?;
            self.add(Arc {
                tail: between,
                cost: 0,
                ..arc
            })
        }
    }

    /// Adds an arc to the problem.
    fn add(&mut self, arc: Arc) -> Result<(), Fault> {
        self.problem.arcs.push(arc).map_err(|_| Fault::OutOfMemory)
    }

    /// Reads a line.
    fn read_line(&mut self, line: &str) -> Result<(), Fault> {
        let mut words = line.split_ascii_whitespace();
        let Some(kind) = words.next() else {
            return Ok(());
        };
        if kind.starts_with('c') {
            Ok(())
        } else if kind == "p" {
            self.read_problem(&mut words)
        } else if kind == "n" {
            self.read_node(&mut words)
        } else if kind == "a" {
            self.read_arc(&mut words)
        } else {
            Err(Fault::NoLine)
        }
    }
}

/// The problem that a text states. A refusal names its first line that isn't served.
pub fn read(alloc: Global, text: &str) -> Result<Problem, Refusal> {
    let mut reader = Reader::new(alloc);
    let mut last = 0;
    for (k, line) in text.lines().enumerate() {
        last = k + 1;
        if let Err(fault) = reader.read_line(line) {
            return Err(Refusal { line: last, fault });
        }
    }
    match reader.stated {
        Some((_, arcs)) if arcs == reader.count => Ok(reader.problem),
        Some(_) => Err(Refusal {
            line: last,
            fault: Fault::Count,
        }),
        None => Err(Refusal {
            line: last,
            fault: Fault::NoProblem,
        }),
    }
}
