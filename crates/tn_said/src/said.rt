//! What the program may say.

use crate::fault::FaultKind;
use crate::lists::{
    Counts, Holdings, Numbers, Place, States, UnitBundle, UnitHoldings, UnitRanges, UnitStates,
    UnitSteps,
};
use crate::reason::Reason;
use tn_model::{Contracts, Nodes, Prices, Ranges, TradeEnds, Trades};

/// Two bundles and a position, or none, at which the exchange property fails, in trade numbers.
#[derive(Drop)]
pub struct Shown {
    /// The trades of the first bundle, ascending.
    pub x: Trades,
    /// The trades of the second bundle, ascending.
    pub y: Trades,
    /// The trade that can't be exchanged, or none where the net count can't be.
    pub at: Option<u32>,
}

/// The first fault of a document.
#[derive(Drop)]
pub struct Fault {
    /// What is wrong.
    pub kind: FaultKind,
    /// Where, from the top of the document.
    pub place: Place,
    /// The failing triple, exactly where the kind is ExchangeFails.
    pub shown: Option<Shown>,
}

/// A command that a page is about.
#[derive(Clone, Copy)]
pub enum Topic {
    Check,
    Firms,
    Test,
    Support,
    Solve,
    Range,
    Session,
    Judge,
    Replay,
    Drill,
    Cases,
}

/// A text of the program about itself.
#[derive(Clone, Copy)]
pub enum Page {
    /// What can be asked: each command, with an example.
    Help,
    /// Which program this is, and by which kit it was proved.
    Version,
    /// What a command reads, an example, its answers, its words and its statuses.
    About(Topic),
}

/// An answer of the program. Firms and trades stand in it by their numbers.
#[derive(Drop)]
pub enum Said {
    /// The words are no command.
    Usage,
    /// The input could not be read.
    ReadFault,
    /// Memory ran out.
    NoMemory,
    /// The document has a fault.
    Fault(Fault),
    /// The arrangement is an equilibrium.
    Equilibrium {
        /// The sum of the firms' worths.
        surplus: i128,
    },
    /// The firm's bundle is possible and not best.
    Better {
        /// The first firm that fails.
        firm: u32,
        /// A best bundle of the firm, as ascending trade numbers.
        bundle: Trades,
        /// What the firm's utility gains by it.
        gain: i128,
    },
    /// The firm's bundle of trades with units is possible and not best.
    BetterByCounts {
        /// The first firm that fails.
        firm: u32,
        /// A best bundle of the firm, ascending by trade.
        bundle: UnitBundle,
        /// What the firm's utility gains by it.
        gain: i128,
    },
    /// The firm's bundle is impossible.
    Impossible {
        /// The first firm that fails.
        firm: u32,
    },
    /// Every firm meets the exchange property.
    Accepted,
    /// The firm doesn't meet the exchange property.
    ExchangeFails {
        /// The first firm that fails.
        firm: u32,
        /// The trades, ascending, of the first bundle of the triple that its test finds first.
        x: Trades,
        /// The trades of the second bundle, ascending.
        y: Trades,
        /// The trade that can't be exchanged, or none where the net count can't be.
        at: Option<u32>,
    },
    /// With these prices the set of trades is an equilibrium.
    Supported {
        /// The trades of the set, ascending.
        on: Trades,
        /// The price of each trade, by trade number.
        prices: Prices,
        /// The ends of each trade, by trade number.
        ends: TradeEnds,
    },
    /// With these prices the counts of trades with units are an equilibrium.
    SupportedByCounts {
        /// How many units of each trade go, by trade number.
        counts: Counts,
        /// The price of each unit of a trade, by trade number.
        prices: Prices,
        /// The ends of each trade, by trade number.
        ends: TradeEnds,
    },
    /// No prices support the set of trades, since this cycle of its exchange graph is negative.
    Cycle {
        /// Its nodes, in order.
        nodes: Nodes,
        /// The sum of its arcs' costs, below 0.
        cost: i128,
    },
    /// No prices support the counts, since this cycle of their exchange graph is negative.
    CycleByCounts {
        /// Its nodes, in order.
        nodes: UnitSteps,
        /// The sum of its arcs' costs, below 0.
        cost: i128,
    },
    /// An equilibrium.
    Solved {
        /// The trades that are on, ascending.
        on: Trades,
        /// The price of each trade, by trade number.
        prices: Prices,
        /// The sum of the firms' worths.
        surplus: i128,
        /// The ends of each trade, by trade number.
        ends: TradeEnds,
    },
    /// An equilibrium of trades with units.
    SolvedByCounts {
        /// How many units of each trade go, by trade number.
        counts: Counts,
        /// The price of each unit of a trade, by trade number.
        prices: Prices,
        /// The sum of the firms' worths.
        surplus: i128,
        /// The ends of each trade, by trade number.
        ends: TradeEnds,
    },
    /// What trade can bring at most in a network that is made from two numbers.
    Drill {
        /// The number of trades.
        size: u32,
        /// The number that the draws start from.
        start: u32,
        /// The number of firms.
        firms: u32,
        /// The greatest surplus of any set of trades.
        surplus: i128,
    },
    /// How far each price may move.
    Ranges {
        /// The trades of an efficient set, ascending.
        on: Trades,
        /// The prices that each trade may have over all equilibria, by trade number.
        ranges: Ranges,
        /// The ends of each trade, by trade number.
        ends: TradeEnds,
    },
    /// How far each price of trades with units may move.
    RangesByCounts {
        /// How many units of each trade go in an efficient way, by trade number.
        counts: Counts,
        /// The prices that each unit of a trade may have over all equilibria, by trade number.
        ranges: UnitRanges,
        /// The ends of each trade, by trade number.
        ends: TradeEnds,
    },
    /// What follows from changes of the admitted trades.
    Session {
        /// An equilibrium of the trades that are admitted after each change, in order.
        edits: States,
    },
    /// What follows from changes of the admitted units of trades.
    SessionByCounts {
        /// An equilibrium by counts of the units that are usable after each change, in order.
        edits: UnitStates,
    },
    /// A firm would rather drop some of its contracts.
    Drops {
        /// The first firm that would.
        firm: u32,
        /// The trades of contracts that it would keep, ascending: a choice of the firm from its contracts.
        keeps: Trades,
        /// What the firm's utility gains, none where its contracts together are an impossible bundle.
        gain: Option<i128>,
        /// The denominator of the gain, which is the outcome's.
        over: i128,
    },
    /// A firm would rather drop some units of its contracts on trades with units.
    DropsByCounts {
        /// The first firm that would.
        firm: u32,
        /// How many units of each trade it would keep, ascending by trade: a choice of the firm from its contracts.
        keeps: UnitBundle,
        /// What the firm's utility gains, none where its contracts together are an impossible bundle.
        gain: Option<i128>,
        /// The denominator of the gain, which is the outcome's.
        over: i128,
    },
    /// With these prices the outcome is completed to an equilibrium.
    Completes {
        /// The price of each trade, by trade number.
        prices: Prices,
        /// The denominator, which is the outcome's.
        over: i128,
    },
    /// With these prices of the units that aren't signed the outcome is completed to an equilibrium by counts.
    CompletesByCounts {
        /// The trades with such a unit at the prices of a unit, ascending.
        prices: Contracts,
        /// The denominator, which is the outcome's.
        over: i128,
    },
    /// These contracts block the outcome.
    Blocks {
        /// The contracts, each one's buyer the seller of the next.
        contracts: Contracts,
        /// Their denominator.
        over: i128,
    },
    /// The claim is valid.
    Valid,
    /// A condition of the claim fails, the first one.
    Invalid(Reason),
    /// The program ran its own cases.
    Cases {
        /// How many there are.
        count: u32,
        /// The numbers, from 1, of those with another answer than they should have, ascending.
        failed: Numbers,
    },
    /// The program tells of itself.
    Page(Page),
    /// What each firm has in an arrangement, and which bundle it would rather have.
    Firms {
        /// How many firms are content: each of them has a best bundle.
        content: u32,
        /// What each firm has, by firm number.
        firms: Holdings,
        /// The sum of the firms' worths, none where the bundle of one is impossible.
        surplus: Option<i128>,
    },
    /// What each firm has in an arrangement of counts, and which bundle it would rather have.
    FirmsByCounts {
        /// How many firms are content: each of them has a best bundle.
        content: u32,
        /// What each firm has, by firm number.
        firms: UnitHoldings,
        /// The sum of the firms' worths, none where the bundle of one is impossible.
        surplus: Option<i128>,
    },
}
