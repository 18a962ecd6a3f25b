//! What the program is asked to do with a document.

/// What the program is asked to do with a document. This says what is read beside its network, and whether each firm
/// is to meet the exchange property.
#[derive(Clone, Copy)]
pub enum Command {
    /// To judge the arrangement.
    Check,
    /// To say what each firm has in the arrangement, and what it would rather have, whether it meets the exchange
    /// property or not.
    Firms,
    /// To give the verdict on the outcome.
    Judge,
    /// To find how far each price of the network may move.
    Range,
    /// To decide the claim. One on exchange, or that there are no prices, is made of firms whether they meet the
    /// exchange property or not.
    Replay,
    /// To find an equilibrium after each of the edits.
    Session,
    /// To find an equilibrium of the network.
    Solve,
    /// To find prices for the trades of the arrangement that are on.
    Support,
    /// To test whether the firms meet the exchange property.
    Test,
}

/// What the program may be asked to do with a document whose trades have units.
#[derive(Clone, Copy)]
pub(crate) enum UnitCommand {
    Check,
    Firms,
    Range,
    Session,
    Solve,
    Support,
    Test,
}
