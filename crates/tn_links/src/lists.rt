//! The list of links of each node.

ghost use Rattle.std.specs.Prelude.{◌≡◌, ◌<◌, ◌≤◌, ◌∷◌, ◌++◌, [], length, map, set, get_or, OnOk, IfOk, if◌then◌else◌, nat_lt};
ghost use Rattle.tn_links.specs.declared.links.Neighbour.{Neighbour};
ghost use Rattle.tn_links.specs.Links.{AreLinks};
ghost use Rattle.tn_links.specs.Near.{AreListed, link_to, rows};
ghost use Rattle.tn_links.specs.Widths.{most_links};

use crate::link::Link;
use crate::links::Neighbour;
use std::alloc::Global;
use tn_base::OutOfMemory;

/// Puts a link at the end of a node's list.
fn list_link(near: &mut Vec<Vec<Neighbour>>, v: u32, one: Neighbour) -> Result<(), OutOfMemory>
    requires { v < length near.old.items }
    ensures { OnOk result (rows near.new.items
        ≡ set (rows near.old.items) v (get_or (rows near.old.items) v [] ++ one ∷ [])) }
{
    let list = &mut near[v as usize];
    list.push(one)?;
    Ok(())
}

/// A list without links for each node.
fn empty_lists(alloc: Global, nodes: u32) -> Result<Vec<Vec<Neighbour>>, OutOfMemory>
    ensures { IfOk result (λ near. AreListed nodes [] (rows near.items)) }
{
    let mut near = Vec::new(alloc);
    for v in 0..nodes {
        near.push(Vec::new(alloc))?;
    }
    Ok(near)
}

/// The links of each node, in their order.
pub(crate) fn lists(
    alloc: Global,
    nodes: u32,
    links: &[Link],
) -> Result<Vec<Vec<Neighbour>>, OutOfMemory>
    requires few { length links.now ≤ most_links }
    requires each { AreLinks nodes links.now }
    ensures { IfOk result (λ near. AreListed nodes links.now (rows near.items)) }
{
    let mut near = empty_lists(alloc, nodes)?;
    for (j, link) in links.iter().enumerate() {
        let to_head = Neighbour {
            link: j as u32,
            node: link.head,
        };
        let to_tail = Neighbour {
            link: j as u32,
            node: link.tail,
        };
        list_link(&mut near, link.tail, to_head)?;
        list_link(&mut near, link.head, to_tail)?;
    }
    Ok(near)
}

/// The link by which a node is listed.
fn link_to(near: &[Neighbour], v: u32) -> Option<u32>
    ensures { result ≡ link_to near.now v }
{
    for one in near {
        if one.node == v {
            return Some(one.link);
        }
    }
    None
}

/// The link that joins two nodes, by the shorter of their lists.
pub(crate) fn link_by(near: &[Vec<Neighbour>], u: u32, v: u32) -> Option<u32>
    requires first { u < length near.now }
    requires second { v < length near.now }
    ensures { result ≡ (let one = get_or (rows near.now) u [] in let other = get_or (rows near.now) v [] in
        if nat_lt (length other) (length one) then link_to other u else link_to one v) }
{
    let one = &near[u as usize];
    let other = &near[v as usize];
    if other.len() < one.len() {
        link_to(other, u)
    } else {
        link_to(one, v)
    }
}
