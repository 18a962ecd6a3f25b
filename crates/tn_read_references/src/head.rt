//! The head of a document, which readers of its parts take.

ghost use Rattle.std.specs.Prelude.{◌≡◌};
ghost use Rattle.tn_read_references.specs.Ordered.{AreTrades, Listed};

use std::marker::Model;
use tn_model::{Ends, Limits};
use tn_names::Names;

/// The head of a document: the limits of its version, the names of its firms and trades, and the two ends of each
/// trade. Names and ends are of the same trades. There are no more firms and trades than the limits allow, each trade
/// has two different firms, and it stands at each of them after the trades before it.
#[derive(Drop)]
pub struct Head {
    limits: Limits,
    names: Names,
    ends: Vec<Ends>,
}

impl Model for Head {
    ghost use Rattle.tn_read_references.specs.Ordered.{AreTrades, Listed};

    ghost Value = { Listed };

    ghost view = { λ head. record { limits = head.limits; names = head.names; ends = head.ends.items } };

    ghost invariant = { λ head. AreTrades
        (record { limits = head.limits; names = head.names; ends = head.ends.items }) };
}

impl Head {
    /// The head of these limits, names and ends.
    pub fn new(limits: Limits, names: Names, ends: Vec<Ends>) -> Head
        requires { AreTrades (record { limits = limits; names = names; ends = ends.items }) }
        ensures { result ≡ record { limits = limits; names = names; ends = ends.items } }
    {
        Head {
            limits,
            names,
            ends,
        }
    }

    /// The limits of the document's version.
    pub fn limits(&self) -> &Limits
        ensures is { result.now ≡ self.now.limits }
        ensures trades { AreTrades self.now }
    {
        &self.limits
    }

    /// The names of the firms and of the trades.
    pub fn names(&self) -> &Names
        ensures is { result.now ≡ self.now.names }
        ensures trades { AreTrades self.now }
    {
        &self.names
    }

    /// The ends of the trades, in file order.
    pub fn ends(&self) -> &[Ends]
        ensures is { result.now ≡ self.now.ends }
        ensures trades { AreTrades self.now }
    {
        &self.ends
    }

    /// The names and the ends.
    pub fn into_parts(self) -> (Names, Vec<Ends>)
        ensures names { result.0 ≡ self.names }
        ensures ends { result.1.items ≡ self.ends }
    {
        (self.names, self.ends)
    }
}
