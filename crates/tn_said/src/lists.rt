//! Lists of what is said.

use crate::holding::Holding;
use crate::part::Part;
use crate::place::PlaceStep;
use crate::session::{Edit, State, UnitEdit, UnitState};
use crate::units::{TradeUnits, UnitHolding, UnitRange, UnitStep};
use tn_model::{Lent, Listed};

/// The way from the top of a document to a value in it.
pub type Place = Listed<PlaceStep>;
/// The parts of a plan: weights over a denominator that is said beside them.
pub type Parts = Listed<Part>;
/// Numbers of cases.
pub type Numbers = Listed<u32>;
/// How many units of each trade go, by trade number: 0 where none does.
pub type Counts = Listed<u32>;
/// A bundle of trades with units: each of its trades, ascending, with how many units of it.
pub type UnitBundle = Listed<TradeUnits>;
/// Nodes of an exchange graph of trades with units: a step, or none for the null node.
pub type UnitSteps = Listed<Option<UnitStep>>;

/// What each firm has in an arrangement, by firm number.
pub type Holdings = Lent<Holding>;
/// Changes of the admitted trades and of the firms that are there, in the order in which they are made.
pub type Edits = Lent<Edit>;
/// An equilibrium after each of some changes, in order.
pub type States = Lent<State>;
/// Changes of the admitted units and of the firms that are there, in the order in which they are made.
pub type UnitEdits = Lent<UnitEdit>;
/// An equilibrium by counts after each of some changes, in order.
pub type UnitStates = Lent<UnitState>;
/// What each firm has in an arrangement of counts, by firm number.
pub type UnitHoldings = Lent<UnitHolding>;
/// What the prices of each trade with units may be, by trade number.
pub type UnitRanges = Lent<UnitRange>;
