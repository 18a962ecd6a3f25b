//! What flows gain.

ghost use Rattle.std.specs.Prelude.{◌≡◌, ◌≤◌, ◌*◌, length};
ghost use Rattle.tn_base.specs.Arcs.{IsAtMost};
ghost use Rattle.tn_links.specs.Flows.{IsKeptFlow, gain, total_gain};
ghost use Rattle.tn_links.specs.Links.{AreSlight};
ghost use Rattle.tn_links.specs.Widths.{most_links, most_rise};

use crate::link::{Link, lost, rise};
use crate::links::Links;

/// What the flow over a link gains at a level.
fn gain(link: &Link, level: u32) -> i128
    requires { AreSlight link.now.steps.items }
    ensures gain { result ≡ gain link.now level }
    ensures small { IsAtMost result (2 * most_rise) }
{
    lost(rise(&link.steps, level), rise(&link.steps, link.back))
}

impl Links {
    /// What a flow gains over all links.
    pub fn gain(&self, levels: &[u32]) -> i128
        requires { IsKeptFlow self.now.links.items levels.now }
        ensures gain { result ≡ total_gain self.now.links.items levels.now }
        ensures small { IsAtMost result (most_links * (2 * most_rise)) }
    {
        let mut total = 0;
        for j in 0..self.links.len() {
            total += gain(&self.links[j], levels[j]);
        }
        total
    }
}
