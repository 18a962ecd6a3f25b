//! A laminar firm as a part of a flow.

ghost use Rattle.std.specs.Prelude.{◌<◌, length};

use crate::laminar::Laminar;
use tn_base::{Bundle, OutOfMemory};
use tn_guess::{Flow, GROUND, Sketch};
use tn_market::MOST_OWN;

/// Equal steps of a net count that follow each other: one arc with as much room.
#[derive(Clone, Copy)]
struct Run {
    from: u32,
    to: u32,
    room: u32,
    cost: i128,
}

impl Run {
    /// No step yet, from one node to another.
    fn between(from: u32, to: u32) -> Run {
        Run {
            from,
            to,
            room: 0,
            cost: 0,
        }
    }

    /// One step more, which ends the run and begins another one where it costs something else.
    fn step(self, flow: &mut Flow, cost: i128) -> Result<Run, OutOfMemory> {
        if cost == self.cost {
            let room = self.room.wrapping_add(1);
            return Ok(Run { room, ..self });
        }
        self.end(flow)?;
        Ok(Run {
            room: 1,
            cost,
            ..self
        })
    }

    /// The arc of the steps, where there are any.
    fn end(self, flow: &mut Flow) -> Result<(), OutOfMemory> {
        if self.room == 0 {
            return Ok(());
        }
        flow.add_arc(self.from, self.to, self.room, self.cost)
    }
}

impl Laminar {
    /// Lays the firm out: a node for each set, arcs to and from that of the least set around it for the steps of its net
    /// count, and each own trade at the node of the least set that has it. What no set has stands at the ground. It
    /// fails only where memory runs out.
    pub fn outline(&self, sketch: &mut Sketch) -> Result<(), OutOfMemory> {
        let first = sketch.flow.add_nodes(self.sets.len() as u32);
        for k in 0..self.sets.len() as u32 {
            let node = first.wrapping_add(k);
            let around = self.node_around(first, self.sets[k as usize].members, k);
            self.lay_steps(k, &mut sketch.flow, Run::between(node, around), true)?;
            self.lay_steps(k, &mut sketch.flow, Run::between(around, node), false)?;
        }
        self.end_trades(first, sketch);
        Ok(())
    }

    /// Each own trade at the node of the least set that has it.
    fn end_trades(&self, first: u32, sketch: &mut Sketch) {
        for k in 0..self.trades {
            let alone = Bundle::empty().toggle(k);
            let node = self.node_around(first, alone, u32::MAX);
            sketch.end(k, node, self.amounts[k as usize]);
        }
    }

    /// The node of the least set that has these positions, and of equal ones the last, where those with no other
    /// position count only before a place; the ground where there is none.
    fn node_around(&self, first: u32, positions: Bundle, place: u32) -> u32 {
        let mut node = GROUND;
        let mut least = u32::MAX;
        for k in 0..self.sets.len() as u32 {
            let members = self.sets[k as usize].members;
            let around = positions.minus(members) == Bundle::empty()
                && (members != positions || k < place);
            if around && members.count() <= least {
                node = first.wrapping_add(k);
                least = members.count();
            }
        }
        node
    }

    /// The arcs of the steps of a set's net count from 0 up, or from 0 down, as far as they are listed. Its numbers are
    /// concave, so the arcs that cost least come first.
    fn lay_steps(&self, k: u32, flow: &mut Flow, run: Run, up: bool) -> Result<(), OutOfMemory>
        requires { k < length self.now.sets.items }
    {
        let set = &self.sets[k as usize];
        let mut run = run;
        for steps in 0..MOST_OWN as u32 {
            let steps = steps as i32;
            let count = if up { steps } else { -steps };
            let next = if up { steps + 1 } else { -steps - 1 };
            match (set.number_at(count), set.number_at(next)) {
                (Some(here), Some(there)) => run = run.step(flow, here.wrapping_sub(there))?,
                _ => return run.end(flow),
            }
        }
        run.end(flow)
    }
}
