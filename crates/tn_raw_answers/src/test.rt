//! The answer of `test`.

ghost use Rattle.std.specs.Prelude.{◌<◌, ◌≤◌, IfOk, length, map};
ghost use Rattle.tn_answer.specs.Kept.{IsWithinClaims};
ghost use Rattle.tn_firm.specs.Raw.{raw_firm_of};
ghost use Rattle.tn_model.specs.Limits.{most_firms, most_trades};
ghost use Rattle.tn_raw_answers.specs.Test.{Tests};

use std::alloc::Global;
use tn_base::OutOfMemory;
use tn_exchange::Verdict;
use tn_file::RawNet;
use tn_said::Said;

/// Whether every firm of a network meets the exchange property, or else the first that doesn't, with its first
/// triple. There are at most 1,024 firms and 1,024 trades.
pub fn answer_test(alloc: Global, net: &RawNet) -> Result<Said, OutOfMemory>
    requires few_firms { length net.now.firms ≤ most_firms }
    requires few_trades { length net.now.ends ≤ most_trades }
    ensures answer { IfOk result (Tests (map raw_firm_of net.now.firms) net.now.ends) }
    ensures within { IfOk result IsWithinClaims }
{
    let firms = net.firms();
    let mut f = 0;
    for firm in firms {
        match firm.test() {
            Verdict::Holds => f += 1,
            Verdict::Fails { x, y, at } => {
                let count = firm.trades();
                let x = net.trades_in(alloc, f, count, x)?;
                let y = net.trades_in(alloc, f, count, y)?;
                return Ok(Said::ExchangeFails {
                    firm: f,
                    x,
                    y,
                    at: net.trade_at(f, at),
                });
            }
        }
    }
    Ok(Said::Accepted)
}
