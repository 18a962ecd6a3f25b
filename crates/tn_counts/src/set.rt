//! Sets of a firm's own trades, with a concave function of the net count within each.

use tn_links::Step;

/// A set of a firm's own trades, and what the net count of units within it adds to the firm's worth: the units bought
/// less those sold. The steps say what each further net unit adds, from the fewest on, which are `back` units below 0;
/// no net count lies beyond them. At a net count of 0 the set adds its constant.
#[derive(Drop)]
pub struct CountSet {
    /// The firm whose set it is.
    pub firm: u32,
    /// The numbers of the trades in it.
    pub members: Vec<u32>,
    /// What the set adds at a net count of 0.
    pub constant: i64,
    /// How many units the steps have below a net count of 0.
    pub back: u32,
    /// What further net units add, from the fewest on.
    pub steps: Vec<Step>,
}
