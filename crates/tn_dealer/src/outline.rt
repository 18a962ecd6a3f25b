//! A dealer as a part of a flow.

use crate::dealer::Dealer;
use tn_base::OutOfMemory;
use tn_guess::Sketch;

impl Dealer {
    /// Lays the firm out: a node for each own trade, and for each pair an arc from its purchase to its sale. It fails
    /// only where memory runs out.
    pub fn outline(&self, sketch: &mut Sketch) -> Result<(), OutOfMemory> {
        let first = sketch.flow.add_nodes(self.trades);
        for k in 0..self.trades {
            sketch.end(k, first.wrapping_add(k), 0);
        }
        for pair in &self.pairs {
            let from = first.wrapping_add(pair.buy);
            let to = first.wrapping_add(pair.sell);
            sketch.flow.add_arc(from, to, 1, pair.cost)?;
        }
        Ok(())
    }
}
