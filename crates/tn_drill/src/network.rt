//! The whole network.

ghost use Rattle.std.specs.Prelude.{◌≡◌, ◌<◌, ◌≤◌, map, IfOk};
ghost use Rattle.tn_firm.specs.Firms.{firm_of};
ghost use Rattle.tn_drill.specs.Draws.{most_drilled, most_start};
ghost use Rattle.tn_drill.specs.Drill.{drawn_ends, draws_of, firms_of};

use crate::draws::{Drawn, Generator};
use crate::firms::firms;
use std::alloc::Global;
use tn_base::OutOfMemory;
use tn_firm::FirmValue;
use tn_market::{Ends, Market};

/// The trades of a drill network, and how they were drawn.
#[derive(Drop)]
struct Draft {
    trades: Vec<Ends>,
    draws: Vec<Drawn>,
}

/// Draws the trades.
fn draw_trades(alloc: Global, size: u32, start: u32) -> Result<Draft, OutOfMemory>
    requires few { size ≤ most_drilled }
    requires start { start ≤ most_start }
    ensures trades { IfOk result (λ draft. draft.trades.items ≡ drawn_ends start size) }
    ensures draws { IfOk result (λ draft. draft.draws.items ≡ draws_of start size) }
{
    let mut generator = Generator::new(start);
    let mut trades = Vec::with_capacity(alloc, size as usize)?;
    let mut draws = Vec::with_capacity(alloc, size as usize)?;
    for i in 0..size {
        let drawn = generator.draw(i);
        trades.push(drawn.ends_after(&trades))?;
        draws.push(drawn)?;
    }
    Ok(Draft { trades, draws })
}

/// The drill network of this many trades that is drawn from a number: 4 producers, 8 middlemen and 4 consumers, with
/// trades from producers to middlemen and from middlemen to consumers by turns. There are 1 to 64 trades, and the
/// number is at most 2,147,483,647. It fails only where memory runs out.
pub fn drill(alloc: Global, size: u32, start: u32) -> Result<Market<FirmValue>, OutOfMemory>
    requires some { 1 ≤ size }
    requires few { size ≤ most_drilled }
    requires start { start ≤ most_start }
    ensures firms { IfOk result (λ market. map firm_of market.firms ≡ firms_of start size) }
    ensures trades { IfOk result (λ market. market.trades ≡ drawn_ends start size) }
{
    let draft = draw_trades(alloc, size, start)?;
    let firms = firms(alloc, &draft.trades, &draft.draws)?;
    Market::new(alloc, firms, draft.trades)
}
