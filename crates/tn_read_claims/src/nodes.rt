//! The nodes of a claimed cycle.

ghost use Rattle.std.specs.Prelude.{◌≡◌, ◌+◌, ◌<◌, ◌≤◌, [], length, OnOk};
ghost use Rattle.serde_json.specs.View.{view, items_view};
ghost use Rattle.tn_model.specs.Limits.{most_nodes};
ghost use Rattle.tn_read_shapes.specs.Reading.{Gives, each};
ghost use Rattle.tn_read_claims.specs.Members.{claimed_nodes, node_or_null, one_node};

use serde_json::Value;
use std::alloc::Global;
use tn_model::Nodes;
use tn_read_references::{Head, trade};
use tn_read_shapes::{ReadError, few, member, require};
use tn_said::PlaceStep::{Index, Key};
use tn_said::{FaultKind, PlaceStep, Word};

/// The fewest nodes of a cycle.
const LEAST_NODES: usize = 2;

/// The claim's nodes, in their order, at least 2 and at most as many as the document's limit.
#[tactic(auto, unfolding(crate::specs::Members::claimed_nodes), using(tn_read_shapes::proofs::ShapeLemmas::items_len_is))]
pub(crate) fn nodes_of(alloc: Global, head: &Head, claim: &Value) -> Result<Nodes, ReadError>
    ensures { Gives (λ nodes. nodes) result (claimed_nodes head.now (view claim.now)) }
{
    let place = [Key(Word::Claim), Key(Word::Nodes)];
    let values = few(
        alloc,
        head.limits().nodes,
        member(claim, Word::Nodes),
        &place,
    )?;
    let enough = LEAST_NODES <= values.len();
    require(alloc, enough, FaultKind::Limit, &place)?;
    let nodes = each_node(alloc, head, values)?;
    Ok(Nodes::from_vec(nodes))
}

/// The nodes of values, one after the other.
fn each_node(alloc: Global, head: &Head, values: &[Value]) -> Result<Vec<Option<u32>>, ReadError>
    requires { length values.now ≤ most_nodes }
    ensures { Gives (λ nodes. nodes.items) result
        (each (one_node head.now.names.trades) [] (items_view values.now)) }
{
    let mut nodes = Vec::new(alloc);
    for value in values {
        add_node(alloc, head, &mut nodes, value)?;
    }
    Ok(nodes)
}

/// Puts one more node to the nodes.
#[tactic(auto, unfolding(crate::specs::Members::one_node))]
fn add_node(
    alloc: Global,
    head: &Head,
    nodes: &mut Vec<Option<u32>>,
    value: &Value,
) -> Result<(), ReadError>
    requires { length nodes.old.items < most_nodes }
    ensures gives { Gives (λ _. nodes.new.items) result
        (one_node head.now.names.trades nodes.old.items (view value.now)) }
    ensures count { OnOk result (length nodes.new.items ≡ length nodes.old.items + 1) }
{
    let place = [
        Key(Word::Claim),
        Key(Word::Nodes),
        Index(nodes.len() as u32),
    ];
    let node = node_or_null(alloc, head, value, &place)?;
    nodes.push(node)?;
    Ok(())
}

/// A node: a trade, or the null node.
fn node_or_null(
    alloc: Global,
    head: &Head,
    value: &Value,
    place: &[PlaceStep],
) -> Result<Option<u32>, ReadError>
    ensures { Gives (λ node. node) result (node_or_null head.now.names.trades place.now (view value.now)) }
{
    match value {
        Value::Null => Ok(None),
        value => {
            let t = trade(alloc, head, value, place)?;
            Ok(Some(t))
        }
    }
}
