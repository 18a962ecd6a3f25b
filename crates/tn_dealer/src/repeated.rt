//! The first pair that has the purchase and the sale of an earlier one.

ghost use Rattle.std.specs.Prelude.{◌<◌, ◌↔◌, length, All, IsTrue};
ghost use Rattle.tn_dealer.specs.Pairs.{IsNear, IsRepeated, GivesFirstRepeated};

use crate::pair::Pair;

/// The first repeated pair, None where there is none.
pub fn first_repeated(pairs: &[Pair]) -> Option<u32>
    requires { All IsNear pairs.now }
    ensures { GivesFirstRepeated pairs.now result }
{
    for k in 0..pairs.len() {
        if is_repeated(pairs, k) {
            return Some(k as u32);
        }
    }
    None
}

/// Whether the pair at a place has the purchase and the sale of an earlier one.
fn is_repeated(pairs: &[Pair], k: usize) -> bool
    requires { k < length pairs.now }
    ensures { IsTrue result ↔ IsRepeated pairs.now k }
{
    for j in 0..k {
        if pairs[j].buy == pairs[k].buy && pairs[j].sell == pairs[k].sell {
            return true;
        }
    }
    false
}
