//! Why a claim isn't valid.

use tn_model::Trades;

/// The first condition of a claim that fails, with the true value where there is one. Firms and trades stand in it by
/// their numbers.
#[derive(Drop)]
pub enum Reason {
    /// A bundle of the firm is impossible.
    Impossible {
        /// The firm, which is the first one where all firms are looked at.
        firm: u32,
    },
    /// The firm's bundle is possible and not best.
    Better {
        /// The first firm that fails.
        firm: u32,
        /// A best bundle of the firm, as ascending trade numbers.
        bundle: Trades,
    },
    /// The firm's bundle is possible.
    Possible {
        /// The claimed firm.
        firm: u32,
    },
    /// The surplus is another one.
    Surplus {
        /// The true surplus.
        surplus: i128,
    },
    /// The gain is another one, or none.
    Gain {
        /// The claimed firm.
        firm: u32,
        /// The true gain, none where the firm's contracts together are an impossible bundle.
        gain: Option<i128>,
    },
    /// A firm doesn't meet the exchange property.
    Exchange {
        /// The first firm that fails.
        firm: u32,
        /// The trades, ascending, of the first bundle of the triple that its test finds first.
        x: Trades,
        /// The trades of the second bundle, ascending.
        y: Trades,
        /// The trade that can't be exchanged, or none where the net count can't be.
        at: Option<u32>,
    },
    /// The claimed triple doesn't fail.
    Holds,
    /// There is no arc from a node to the next one.
    Arc {
        /// The index of the first such node.
        index: u32,
    },
    /// The cost is another one, or isn't negative.
    Cost {
        /// The true cost.
        cost: i128,
    },
    /// A trade that would be kept has no contract.
    Contract {
        /// The first such trade.
        trade: u32,
    },
    /// The denominator isn't the outcome's.
    Over {
        /// The outcome's denominator.
        over: i128,
    },
    /// A price isn't that of the trade's contract.
    Price {
        /// The first such trade.
        trade: u32,
    },
    /// There is no contract.
    Empty,
    /// A claimed contract is in the outcome.
    Signed {
        /// The first such trade.
        trade: u32,
    },
    /// A firm has a choice without one of its claimed contracts.
    Choice {
        /// The first such firm.
        firm: u32,
        /// The trade of its first such contract.
        trade: u32,
    },
    /// The weights of a firm's parts exceed the denominator.
    Shares {
        /// The first such firm.
        firm: u32,
    },
    /// A trade doesn't weigh the same at its seller and its buyer.
    Balance {
        /// The first such trade.
        trade: u32,
    },
    /// A set of trades is worth as much as the plan, or more.
    Whole {
        /// The trades of such a set, ascending.
        on: Trades,
        /// Its surplus.
        surplus: i128,
    },
}
