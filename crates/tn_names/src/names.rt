//! The names of a document's firms and trades.

ghost use Rattle.std.specs.Prelude.{◌≡◌, ◌<◌, true, false, Some, not, length, slice_get, if◌then◌else◌, ◌↔◌, IsSome, IfSome, IsTrue, IfOk, OnErr};
ghost use Rattle.tn_names.specs.Names.{IsNameList, has_name, is_name, number_of, no_names, with_firm, with_trade, most_names};

use crate::name_list::NameList;
use std::alloc::Global;
use std::marker::Model;
use tn_base::OutOfMemory;

/// The names of firms and of trades, each in first-seen order. Those of one sort are different; a firm and a trade may
/// have the same name.
#[derive(Drop)]
pub struct Names {
    firms: NameList,
    trades: NameList,
}

impl Model for Names {
    ghost use Rattle.tn_names.specs.Names.{NameLists};

    ghost Value = { NameLists };

    ghost view = { λ names. record { firms = names.firms; trades = names.trades } };
}

impl Names {
    /// No names. It takes no memory and keeps the allocator.
    pub fn empty(alloc: Global) -> Names
        ensures { result ≡ no_names }
    {
        Names {
            firms: NameList::new(alloc),
            trades: NameList::new(alloc),
        }
    }

    /// How many firms have a name.
    pub fn firms(&self) -> u32
        ensures len { result ≡ length self.now.firms }
        ensures kept { IsNameList self.now.firms }
    {
        self.firms.len()
    }

    /// How many trades have a name.
    pub fn trades(&self) -> u32
        ensures len { result ≡ length self.now.trades }
        ensures kept { IsNameList self.now.trades }
    {
        self.trades.len()
    }

    /// The name of a firm. There is one.
    pub fn firm(&self, f: u32) -> &str
        requires { f < length self.now.firms }
        ensures { slice_get self.now.firms f ≡ Some result.now }
    {
        self.firms.name(f)
    }

    /// The name of a trade. There is one.
    pub fn trade(&self, t: u32) -> &str
        requires { t < length self.now.trades }
        ensures { slice_get self.now.trades t ≡ Some result.now }
    {
        self.trades.name(t)
    }

    /// Puts the name of a firm last, unless it is there, and says whether it did. Where it is there, that takes no
    /// memory and changes nothing; neither does anything change where memory runs out. The name keeps the rule for
    /// names, and fewer than 4,096 names of firms are there.
    pub fn add_firm(&mut self, name: &str) -> Result<bool, OutOfMemory>
        requires named { IsTrue (is_name name.now) }
        requires room { length self.old.firms < most_names }
        ensures added { IfOk result (λ added. added ≡ not (has_name self.old.firms name.now)) }
        ensures last { IfOk result
            (λ added. self.new ≡ (if added then with_firm self.old name.now else self.old)) }
        // Only a new name can want memory.
        ensures known { has_name self.old.firms name.now ≡ true → result ≡ Ok false }
        ensures err { OnErr result (self.new ≡ self.old) }
    {
        self.firms.add(name)
    }

    /// Puts the name of a trade last, unless it is there, and says whether it did. Where it is there, that takes no
    /// memory and changes nothing; neither does anything change where memory runs out. The name keeps the rule for
    /// names, and fewer than 4,096 names of trades are there.
    pub fn add_trade(&mut self, name: &str) -> Result<bool, OutOfMemory>
        requires named { IsTrue (is_name name.now) }
        requires room { length self.old.trades < most_names }
        ensures added { IfOk result (λ added. added ≡ not (has_name self.old.trades name.now)) }
        ensures last { IfOk result
            (λ added. self.new ≡ (if added then with_trade self.old name.now else self.old)) }
        // Only a new name can want memory.
        ensures known { has_name self.old.trades name.now ≡ true → result ≡ Ok false }
        ensures err { OnErr result (self.new ≡ self.old) }
    {
        self.trades.add(name)
    }

    /// The number of the firm with this name. None exactly where no firm has it.
    pub fn firm_of(&self, name: &str) -> Option<u32>
        ensures number { result ≡ number_of self.now.firms name.now }
        ensures there { IsSome result ↔ IsTrue (has_name self.now.firms name.now) }
        ensures found { IfSome result (λ f. slice_get self.now.firms f ≡ Some name.now) }
    {
        self.firms.number_of(name)
    }

    /// The number of the trade with this name. None exactly where no trade has it.
    pub fn trade_of(&self, name: &str) -> Option<u32>
        ensures number { result ≡ number_of self.now.trades name.now }
        ensures there { IsSome result ↔ IsTrue (has_name self.now.trades name.now) }
        ensures found { IfSome result (λ t. slice_get self.now.trades t ≡ Some name.now) }
    {
        self.trades.number_of(name)
    }
}
