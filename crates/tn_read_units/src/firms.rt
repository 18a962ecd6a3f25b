//! Reads the firms of a document whose trades have units.

ghost use Rattle.std.specs.Prelude.{◌≡◌, ◌+◌, ◌<◌, ◌≤◌, ◌++◌, [], ◌∷◌, length, option_map, IfOk, OnOk};
ghost use Rattle.serde_json.specs.View.{view, items_view};
ghost use Rattle.tn_counts.specs.Widths.{most_count_sets, most_unit_firms};
ghost use Rattle.tn_read_shapes.specs.Reading.{Gives, each};
ghost use Rattle.tn_read_head.specs.Refused.{Reads};
ghost use Rattle.tn_read_units.specs.Documents.{IsUnitDocument};
ghost use Rattle.tn_read_units.specs.Firms.{document_of, firm_of, firms_of, kind_at, one_firm, sets_at};

use crate::amounts::{Amount, OwnAmounts, amounts_of};
use crate::checks::check_sets;
use crate::head::{UnitHead, read_unit_head};
use crate::sets::{WrittenSet, read_sets};
use serde_json::Value;
use std::alloc::Global;
use std::marker::Model;
use tn_counts::UnitTrade;
use tn_names::Names;
use tn_read_head::DocRefusal;
use tn_read_shapes::{
    FirmKind, ObjectKind, ReadError, member, object_of, optional_list, require, text,
};
use tn_said::PlaceStep::{Index, Key};
use tn_said::{FaultKind, Word};

/// The most sets of all firms.
const MOST_SETS: usize = 4096;

/// A laminar firm as a document writes it.
#[derive(Drop)]
pub struct WrittenFirm {
    amounts: OwnAmounts,
    sets: Vec<WrittenSet>,
}

impl Model for WrittenFirm {
    ghost use Rattle.tn_read_units.specs.Firms.{WrittenFirm as ReadFirm};

    ghost Value = { ReadFirm };

    ghost view = { λ firm. record { amounts = firm.amounts; sets = firm.sets.items } };
}

impl WrittenFirm {
    /// The amounts, in the order in which the firm gives them.
    pub fn amounts(&self) -> &[Amount]
        ensures { result.now ≡ self.now.amounts.entries }
    {
        self.amounts.entries()
    }

    /// The sets, in the order in which the firm gives them.
    pub fn sets(&self) -> &[WrittenSet]
        ensures { result.now ≡ self.now.sets }
    {
        &self.sets
    }
}

/// Whether the kind of firm `f` is laminar; another is a fault of shape.
#[tactic(auto, unfolding(crate::specs::Firms::kind_at))]
fn check_kind(alloc: Global, f: u32, firm: &Value) -> Result<(), ReadError>
    ensures { Gives (λ _. tt) result (kind_at f (view firm.now)) }
{
    let place = [Key(Word::Firms), Index(f), Key(Word::Kind)];
    let kind = text(alloc, member(firm, Word::Kind), &place)?;
    require(alloc, kind == "laminar", FaultKind::Shape, &place)
}

/// The sets of firm `f`, where earlier firms have so many. All are read before one is tested.
#[tactic(auto, unfolding(crate::specs::Firms::sets_at), using(tn_read_shapes::proofs::ShapeLemmas::items_len_is))]
fn sets_of(
    alloc: Global,
    head: &UnitHead,
    before: usize,
    f: u32,
    value: Option<&Value>,
) -> Result<Vec<WrittenSet>, ReadError>
    requires few { before ≤ most_count_sets }
    ensures gives { Gives (λ sets. sets.items) result
        (sets_at head.now before f (option_map (λ v. view v.now) value.entry)) }
    ensures few { IfOk result (λ sets. before + length sets.items ≤ most_count_sets) }
{
    let place = [Key(Word::Firms), Index(f), Key(Word::Sets)];
    let items = optional_list(alloc, value, &place)?;
    let few = items.len() <= MOST_SETS - before;
    require(alloc, few, FaultKind::Limit, &place)?;
    let sets = read_sets(alloc, head, f, items)?;
    check_sets(alloc, f, &sets)?;
    Ok(sets)
}

/// Firm `f`, where earlier firms have so many sets.
#[tactic(auto, unfolding(crate::specs::Firms::firm_of))]
fn firm_of(
    alloc: Global,
    head: &UnitHead,
    before: usize,
    f: u32,
    firm: &Value,
) -> Result<WrittenFirm, ReadError>
    requires few { before ≤ most_count_sets }
    ensures gives { Gives (λ firm. firm) result (firm_of head.now before f (view firm.now)) }
    ensures few { IfOk result (λ firm. before + length firm.sets ≤ most_count_sets) }
{
    check_kind(alloc, f, firm)?;
    let place = [Key(Word::Firms), Index(f)];
    object_of(
        alloc,
        ObjectKind::Firm(FirmKind::Laminar),
        Some(firm),
        &place,
    )?;
    let amounts = amounts_of(alloc, head, f, member(firm, Word::Amounts))?;
    let sets = sets_of(alloc, head, before, f, member(firm, Word::Sets))?;
    Ok(WrittenFirm { amounts, sets })
}

/// The firms that have been read, and how many sets they have.
#[derive(Drop)]
struct WrittenFirms {
    sets: usize,
    firms: Vec<WrittenFirm>,
}

impl Model for WrittenFirms {
    ghost use Rattle.std.specs.Prelude.{◌≤◌};
    ghost use Rattle.tn_counts.specs.Widths.{most_count_sets};
    ghost use Rattle.tn_read_units.specs.Firms.{WrittenFirms as ReadFirms};

    ghost Value = { ReadFirms };

    ghost view = { λ all. record { sets = all.sets; firms = all.firms.items } };

    ghost invariant = { λ all. all.sets ≤ most_count_sets };
}

/// The firms of a document in their order.
fn read_firms(alloc: Global, head: &UnitHead, items: &[Value]) -> Result<WrittenFirms, ReadError>
    requires few { length items.now ≤ most_unit_firms }
    ensures { Gives (λ firms. firms) result (firms_of head.now (items_view items.now)) }
{
    let mut firms = WrittenFirms {
        sets: 0,
        firms: Vec::new(alloc),
    };
    for item in items {
        add_firm(alloc, head, &mut firms, item)?;
    }
    Ok(firms)
}

/// Puts one more firm to the firms.
#[tactic(auto, unfolding(crate::specs::Firms::one_firm))]
fn add_firm(
    alloc: Global,
    head: &UnitHead,
    firms: &mut WrittenFirms,
    item: &Value,
) -> Result<(), ReadError>
    requires few { length firms.old.firms < most_unit_firms }
    ensures gives { Gives (λ _. firms.new) result (one_firm head.now firms.old (view item.now)) }
    ensures count { OnOk result (length firms.new.firms ≡ length firms.old.firms + 1) }
{
    let f = firms.firms.len() as u32;
    let next = firm_of(alloc, head, firms.sets, f, item)?;
    let sets = firms.sets + next.sets.len();
    firms.firms.push(next)?;
    firms.sets = sets;
    Ok(())
}

/// A document whose trades have units: its head, and its firms as they are written. There is a firm for each name; each
/// gives amounts and sets of its own trades alone, sets are concave, and of two sets that share a trade one is within the
/// other.
#[derive(Drop)]
pub struct UnitDocument {
    head: UnitHead,
    firms: Vec<WrittenFirm>,
}

impl Model for UnitDocument {
    ghost use Rattle.tn_read_units.specs.Documents.{IsUnitDocument};
    ghost use Rattle.tn_read_units.specs.Firms.{UnitDocument as ReadDocument};

    ghost Value = { ReadDocument };

    ghost view = { λ doc. record { head = doc.head; firms = doc.firms.items } };

    ghost invariant = { λ doc. IsUnitDocument (record { head = doc.head; firms = doc.firms.items }) };
}

impl UnitDocument {
    /// The names of the firms and of the trades.
    pub fn names(&self) -> &Names
        ensures is { result.now ≡ self.now.head.names }
        ensures kept { IsUnitDocument self.now }
    {
        self.head.names()
    }

    /// The names and the trades.
    pub fn head(&self) -> &UnitHead
        ensures is { result.now ≡ self.now.head }
        ensures kept { IsUnitDocument self.now }
    {
        &self.head
    }

    /// The names alone.
    pub fn into_names(self) -> Names
        ensures { result ≡ self.head.names }
    {
        self.head.into_names()
    }

    /// The trades, in file order.
    pub fn trades(&self) -> &[UnitTrade]
        ensures is { result.now ≡ self.now.head.trades }
        ensures kept { IsUnitDocument self.now }
    {
        self.head.trades()
    }

    /// The firms, in file order.
    pub fn firms(&self) -> &[WrittenFirm]
        ensures is { result.now ≡ self.now.firms }
        ensures kept { IsUnitDocument self.now }
    {
        &self.firms
    }
}

/// Reads a document whose trades have units. What isn't one is refused with its first fault, beside the names that
/// were read until then.
#[tactic(auto, unfolding(crate::specs::Firms::document_of))]
pub fn read_unit_document(alloc: Global, top: &Value) -> Result<UnitDocument, DocRefusal>
    ensures { Reads (λ doc. doc) result (document_of (view top.now)) }
{
    let (head, items) = read_unit_head(alloc, top)?;
    match read_firms(alloc, &head, items) {
        Ok(all) => Ok(UnitDocument {
            head,
            firms: all.firms,
        }),
        Err(error) => Err(DocRefusal::beside(error, head.into_names())),
    }
}
