//! Lists of plain data.

ghost use Rattle.std.specs.Prelude.{◌≡◌, ◌<◌, Some, length, slice_get};

use crate::contract::Contract;
use crate::ends::Ends;
use crate::range::Range;
use std::marker::Model;

/// Trade numbers.
pub type Trades = Listed<u32>;
/// Prices by trade number: numerators over a denominator that is said beside them.
pub type Prices = Listed<i128>;
/// The ends of trades, by trade number.
pub type TradeEnds = Listed<Ends>;
/// Contracts over a denominator that is said beside them.
pub type Contracts = Listed<Contract>;
/// Nodes of an exchange graph: a trade number, or none for the null node.
pub type Nodes = Listed<Option<u32>>;
/// Whole numbers of worth.
pub type Amounts = Listed<i128>;

/// What the prices of each trade may be, by trade number.
pub type Ranges = Lent<Range>;

/// A list of items that can be made from a vector and read by place.
#[derive(Drop)]
pub struct Listed<T> {
    items: Vec<T>,
}

impl<T> Model for Listed<T> {
    ghost use Rattle.std.specs.Prelude.{List};

    ghost Value = { List T };

    ghost view = { λ list. list.items.items };
}

impl<T: Copy> Listed<T> {
    /// The list of these items. It takes no memory.
    pub fn from_vec(items: Vec<T>) -> Self
        ensures { result ≡ items.items }
    {
        Listed { items }
    }

    /// How many items there are.
    pub fn len(&self) -> usize
        ensures { result ≡ length self.now }
    {
        self.items.len()
    }

    /// The item at a place, counted from 0. It is below the length.
    pub fn at(&self, k: usize) -> T
        requires { k < length self.now }
        ensures { slice_get self.now k ≡ Some result }
    {
        self.items[k]
    }
}

/// A list of items that can be made from a vector and lent by place.
#[derive(Drop)]
pub struct Lent<T> {
    items: Vec<T>,
}

impl<T> Model for Lent<T> {
    ghost use Rattle.std.specs.Prelude.{List};

    ghost Value = { List T };

    ghost view = { λ list. list.items.items };
}

impl<T> Lent<T> {
    /// The list of these items. It takes no memory.
    pub fn from_vec(items: Vec<T>) -> Self
        ensures { result ≡ items.items }
    {
        Lent { items }
    }

    /// How many items there are.
    pub fn len(&self) -> usize
        ensures { result ≡ length self.now }
    {
        self.items.len()
    }

    /// The item at a place, counted from 0. It is below the length.
    pub fn at(&self, k: usize) -> &T
        requires { k < length self.now }
        ensures { slice_get self.now k ≡ Some result.now }
    {
        &self.items[k]
    }
}
