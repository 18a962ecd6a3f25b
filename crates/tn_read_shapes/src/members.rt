//! The members of objects: what stands beside a name, and which names an object may have.

ghost use Rattle.std.specs.Prelude.{◌≡◌, map, option_map, string_bytes};
ghost use Rattle.std.specs.List.{list_all};
ghost use Rattle.serde_json.specs.Find.{get};
ghost use Rattle.serde_json.specs.View.{view, members_view};
ghost use Rattle.tn_said.specs.Words.{word_text};
ghost use Rattle.tn_read_shapes.specs.Members.{allows, allows_all};

use crate::claims::{ClaimKind, allows_in_claim};
use crate::words::is_one_of;
use serde_json::{Map, Value};
use tn_said::Word;

/// The kinds of firms.
#[derive(Clone, Copy)]
pub enum FirmKind {
    /// A number for each of some bundles.
    Table,
    /// Amounts, and concave numbers over nested sets.
    Laminar,
    /// Costs and gains, and the worth of what is kept.
    Middleman,
    /// Pairs of purchases and sales, with their costs.
    Dealer,
}

/// The objects of a document whose members are fixed.
#[derive(Clone, Copy)]
pub enum ObjectKind {
    /// The document.
    Top,
    /// A trade.
    Trade,
    /// A firm of a kind.
    Firm(FirmKind),
    /// A set of a laminar firm.
    LaminarSet,
    /// A trade of many units.
    UnitTrade,
    /// A set of a firm whose trades have units.
    CountSet,
    /// The arrangement.
    Arrangement,
    /// The outcome.
    Outcome,
    /// A claim of a kind.
    Claim(ClaimKind),
}

/// What stands in an object beside the name of a member; none where there is no such member, or no object.
pub fn member(object: &Value, word: Word) -> Option<&Value>
    ensures { option_map (λ v. view v.now) result ≡ get (word_text word) (view object.now) }
{
    object.get(word.text())
}

/// Whether an object of a kind has allowed members alone.
pub(crate) fn allows_all(kind: ObjectKind, members: &Map<String, Value>) -> bool
    ensures { result ≡ allows_all kind (members_view members.now.entries) }
{
    allows_keys(kind, members)
}

fn allows_keys(kind: ObjectKind, members: &Map<String, Value>) -> bool
    ensures { result ≡ list_all (λ k. allows kind (string_bytes k)) (map (λ m. m.0) members.now.entries) }
{
    members.keys().all(|key| allows(kind, key.as_str()))
}

#[tactic(auto, unfolding(crate::specs::Members::allows))]
fn allows(kind: ObjectKind, key: &str) -> bool
    ensures { result ≡ allows kind key.now }
{
    match kind {
        ObjectKind::Top => is_one_of(
            key,
            &[
                Word::Version,
                Word::Firms,
                Word::Trades,
                Word::Arrangement,
                Word::Outcome,
                Word::Claim,
                Word::Edits,
                Word::Note,
            ],
        ),
        ObjectKind::Trade => is_one_of(key, &[Word::Name, Word::Seller, Word::Buyer, Word::Note]),
        ObjectKind::Firm(FirmKind::Table) => is_one_of(
            key,
            &[Word::Name, Word::Kind, Word::Rows, Word::Note],
        ),
        ObjectKind::Firm(FirmKind::Laminar) => {
            is_one_of(
                key,
                &[
                    Word::Name,
                    Word::Kind,
                    Word::Amounts,
                    Word::Sets,
                    Word::Note,
                ],
            )
        }
        ObjectKind::Firm(FirmKind::Middleman) => {
            is_one_of(
                key,
                &[
                    Word::Name,
                    Word::Kind,
                    Word::Costs,
                    Word::Gains,
                    Word::Keep,
                    Word::Note,
                ],
            )
        }
        ObjectKind::Firm(FirmKind::Dealer) => is_one_of(
            key,
            &[Word::Name, Word::Kind, Word::Pairs, Word::Note],
        ),
        ObjectKind::LaminarSet => is_one_of(key, &[Word::Trades, Word::From, Word::Values]),
        ObjectKind::UnitTrade => is_one_of(
            key,
            &[
                Word::Name,
                Word::Seller,
                Word::Buyer,
                Word::Units,
                Word::Note,
            ],
        ),
        ObjectKind::CountSet => is_one_of(
            key,
            &[
                Word::Trades,
                Word::Bought,
                Word::Sold,
                Word::From,
                Word::Values,
            ],
        ),
        ObjectKind::Arrangement => is_one_of(key, &[Word::On, Word::Prices]),
        ObjectKind::Outcome => is_one_of(key, &[Word::Over, Word::Contracts]),
        ObjectKind::Claim(kind) => allows_in_claim(kind, key),
    }
}
