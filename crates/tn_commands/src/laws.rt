//! A law of sessions: firms that are away have nothing.

ghost use Rattle.tn_commands.specs.Session.{FirmsAwayHaveNothing};

/// In a state each firm that is away has its empty bundle.
pub fn firms_away_have_nothing()
    ensures { FirmsAwayHaveNothing }
{}
