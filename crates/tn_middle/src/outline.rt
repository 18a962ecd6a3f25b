//! A middleman as a part of a flow.

use crate::middle::Middle;
use tn_base::OutOfMemory;
use tn_guess::{GROUND, Sketch};

impl Middle {
    /// Lays the firm out: a node for its purchases and one for its sales, with an arc between them for the one good that
    /// it pairs, and where it may keep that, an arc to the ground. It fails only where memory runs out.
    pub fn outline(&self, sketch: &mut Sketch) -> Result<(), OutOfMemory> {
        let bought = sketch.flow.add_nodes(2);
        let sold = bought.wrapping_add(1);
        sketch.flow.add_arc(bought, sold, 1, 0)?;
        if let Some(keep) = self.keep {
            sketch.flow.add_arc(sold, GROUND, 1, keep.wrapping_neg())?;
        }
        for k in 0..self.trades {
            let number = self.numbers[k as usize];
            if self.buys.has(k) {
                sketch.end(k, bought, number.wrapping_neg());
            } else {
                sketch.end(k, sold, number);
            }
        }
        Ok(())
    }
}
