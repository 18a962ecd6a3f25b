//! What is said to the program and by it: answers, claims and reasons against them, faults and places in a document,
//! edits of a session and the states after them. The definitions stand in `specs/`: words, numbers of faults, limits of
//! claims and edits.
#![tactic(auto)]

mod claim;
mod fault;
mod holding;
mod lists;
mod part;
mod place;
mod reason;
mod said;
mod session;
mod units;

pub use claim::{FirmClaim, MarketClaim};
pub use fault::FaultKind;
pub use holding::Holding;
pub use lists::{
    Counts, Edits, Holdings, Numbers, Parts, Place, States, UnitBundle, UnitEdits, UnitHoldings,
    UnitRanges, UnitStates, UnitSteps,
};
pub use part::Part;
pub use place::{PlaceStep, Word};
pub use reason::Reason;
pub use said::{Fault, Page, Said, Shown, Topic};
pub use session::{Edit, State, UnitEdit, UnitState};
pub use units::{TradeUnits, UnitHolding, UnitRange, UnitStep};
