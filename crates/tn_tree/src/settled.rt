//! Flows of greatest gain over the links of a market.

ghost use Rattle.std.specs.Prelude.{◌≡◌, ◌≤◌, IfOk};
ghost use Rattle.tn_cycle.specs.Answers.{AreLabels};
ghost use Rattle.tn_cycle.specs.Widths.{most_graph_nodes};
ghost use Rattle.tn_links.specs.Flows.{IsKeptFlow};
ghost use Rattle.tn_links.specs.Lots.{link_arc};

use std::alloc::Global;
use tn_base::OutOfMemory;
use tn_cycle::Finder;
use tn_links::{Links, settle_near};

/// The levels of a flow of greatest gain; the finder reads labels that show it.
pub(crate) fn settled(
    alloc: Global,
    links: &Links,
    nodes: u32,
    finder: &mut Finder,
) -> Result<Vec<u32>, OutOfMemory>
    requires some { 1 ≤ nodes }
    requires few { nodes ≤ most_graph_nodes }
    requires sized { links.now.nodes ≡ nodes }
    requires fits { finder.old.nodes ≡ nodes }
    ensures kept { IfOk result (λ levels. IsKeptFlow links.now.links.items levels.items) }
    ensures same_nodes { finder.new.nodes ≡ nodes }
    ensures labelled { IfOk result (λ levels. AreLabels nodes (link_arc links.now.links.items levels.items 1)
        finder.new.labels) }
{
    let mut levels = links.begin(alloc)?;
    let mut before = Finder::new(alloc, nodes)?;
    settle_near(links, &mut levels, finder, &mut before);
    Ok(levels)
}
