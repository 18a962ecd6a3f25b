//! Laws of claims that are read: their limits, and their faults.

ghost use Rattle.tn_read_claims.specs.Laws.{ClaimsAreWithin, ClaimsKeepLimits, FaultsOfClaims, RawClaimsAreTold};

/// A claim that is read of a network's document speaks of its firms, trades and positions, and its numbers keep the
/// limits of claims. Of its contracts no two are on one trade.
pub fn claims_are_within()
    ensures { ClaimsAreWithin }
{}

/// A claim keeps the limits of the document: its nodes are at most 65 in version 1, 129 in version 2, and 1,025 in
/// version 3; its denominator and its weights are at most 100,000, and 1,000,000 in version 3.
pub fn claims_keep_limits()
    ensures { ClaimsKeepLimits }
{}

/// Whether the claim that is read is one that is made of firms as they are listed is told by the text of its answer.
pub fn raw_claims_are_told()
    ensures { RawClaimsAreTold }
{}

/// A claim, or the part of the document that it speaks of, is refused for a shape, an unknown firm or trade, a trade
/// that isn't the firm's own or is named twice, a number out of its range, a count out of its limit, a price that is
/// missing, or a denominator out of its range, and for nothing else.
pub fn faults_of_claims()
    ensures { FaultsOfClaims }
{}
