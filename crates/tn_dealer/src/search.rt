//! The search for a least matching: trades of one side are matched one at a time, each along a path of least cost (the
//! Hungarian method: Kuhn, 1955; Jonker and Volgenant, 1987). Nothing rests on it: what it finds is a certificate that
//! is tested.

ghost use Rattle.std.specs.Prelude.{◌<◌, ◌≤◌, IfSome};
ghost use Rattle.tn_market.specs.Widths.{most_own};

use crate::costs::{CELLS, POSITIONS, UNLISTED, place};
use crate::row::PathNumbers;
use tn_base::Bundle;

/// The mate of a trade that has none.
const NONE: usize = POSITIONS;

/// How far a trade is that isn't reached.
const FAR: i64 = i64::MAX;

/// How far that is in numbers: farther than any costs sum to, and so little that no sum of numbers wraps.
const UNREACHED: i64 = 1 << 60;

/// Who is matched with whom.
#[derive(Clone, Copy)]
pub(crate) struct Mates {
    /// The first side are the purchases, or the sales.
    by_sale: bool,
    /// For each trade of the second side that of the first.
    mates: [usize; POSITIONS],
}

/// What the search found. Where all trades are matched, `mates` has a trade of the first side for each trade of the
/// second side, and two numbers sum to at most the cost of a pair. Otherwise two numbers sum to at most 0 where a pair
/// is listed, and those of all trades to more.
#[derive(Drop)]
pub(crate) struct Certificate {
    pub(crate) matched: bool,
    pub(crate) numbers: [i64; POSITIONS],
    pub(crate) mates: Mates,
}

/// The path by which a toggled bundle is matched: how long it is, and who is matched with whom after it.
#[derive(Drop)]
pub(crate) struct Path {
    pub(crate) distance: i64,
    pub(crate) mates: Mates,
}

/// The matching so far, with a number for each position (a potential).
#[derive(Clone, Copy)]
struct Matching<'a> {
    costs: &'a [i32; CELLS],
    /// How many own trades there are: no other position is looked at.
    trades: usize,
    /// The first side are the purchases, or the sales.
    by_sale: bool,
    numbers: [i64; POSITIONS],
    /// For each trade of the second side that of the first.
    mates: [usize; POSITIONS],
    /// For each trade of the first side that of the second.
    mated: [usize; POSITIONS],
    ghost few: { trades ≤ most_own },
}

/// What can be reached from a trade of the first side by listed pairs and back by matched ones: how far each trade of
/// the second side is, by what costs exceed numbers, and from which one of the first side.
#[derive(Drop)]
struct Reach {
    seconds: Bundle,
    distances: [i64; POSITIONS],
    from: [usize; POSITIONS],
}

/// A matching of a bundle that has one trade more of the first side: all of the second side are matched, one of the
/// first is left, and how far the others are from it is known, so that each bundle with one trade toggled has a least
/// matching along one path.
#[derive(Drop)]
pub(crate) struct Spare<'a> {
    pub(crate) numbers: PathNumbers,
    firsts: Bundle,
    left: usize,
    matching: Matching<'a>,
    reach: Reach,
}

/// A certificate for the bundle `x`, which has as many purchases as sales, of a firm that has so many trades and buys
/// `buys`.
pub(crate) fn search(costs: &[i32; CELLS], trades: usize, x: Bundle, buys: Bundle) -> Certificate
    requires { trades ≤ most_own }
{
    let purchases = x.meet(buys);
    let sales = x.minus(buys);
    let mut matching = Matching::new(costs, trades, false);
    for b in 0..trades {
        if purchases.has(b as u32) {
            if let Some(reach) = matching.extend(b, sales) {
                return matching.unmatched(b, &reach);
            }
        }
    }
    matching.certificate()
}

/// More trades of one side than those of the other that they can be matched with.
fn unmatched(trades: usize, more: Bundle, fewer: Bundle) -> Certificate
    requires { trades ≤ most_own }
{
    let mut numbers = [0; POSITIONS];
    for k in 0..trades {
        if more.has(k as u32) {
            numbers[k] = 1;
        }
        if fewer.has(k as u32) {
            numbers[k] = -1;
        }
    }
    Certificate {
        matched: false,
        numbers,
        mates: Mates {
            by_sale: false,
            mates: [NONE; POSITIONS],
        },
    }
}

impl Mates {
    /// The purchase and the sale of the pair that a position of the second side is matched in; where it has no mate,
    /// one of them is no position.
    pub(crate) fn pair_at(&self, k: usize) -> (usize, usize)
        requires { k < most_own }
    {
        if self.by_sale {
            (k, self.mates[k])
        } else {
            (self.mates[k], k)
        }
    }
}

impl Reach {
    /// Nothing is reached.
    fn new() -> Reach {
        Reach {
            seconds: Bundle::empty(),
            distances: [FAR; POSITIONS],
            from: [NONE; POSITIONS],
        }
    }

    /// The trade that is nearest of so many, of those not taken yet, and how far it is.
    fn nearest(&self, trades: usize) -> Option<(usize, i64)>
        requires { trades ≤ most_own }
        ensures { IfSome result (λ found. found.0 < most_own) }
    {
        let mut nearest = None;
        let mut least = FAR;
        for s in 0..trades {
            if self.distances[s] < least && !self.seconds.has(s as u32) {
                least = self.distances[s];
                nearest = Some((s, least));
            }
        }
        nearest
    }
}

impl<'a> Matching<'a> {
    /// Nothing is matched.
    fn new(costs: &'a [i32; CELLS], trades: usize, by_sale: bool) -> Matching<'a>
        requires { trades ≤ most_own }
    {
        Matching {
            costs,
            trades,
            by_sale,
            numbers: [0; POSITIONS],
            mates: [NONE; POSITIONS],
            mated: [NONE; POSITIONS],
        }
    }

    /// The cost of a trade of the first side and one of the second.
    fn cost(&self, first: usize, second: usize) -> i32
        requires first { first < most_own }
        requires second { second < most_own }
    {
        if self.by_sale {
            self.costs[place(second, first)]
        } else {
            self.costs[place(first, second)]
        }
    }

    /// The certificate of a bundle whose trades are all matched.
    fn certificate(&self) -> Certificate {
        Certificate {
            matched: true,
            numbers: self.numbers,
            mates: self.paired(),
        }
    }

    /// Who is matched with whom.
    fn paired(&self) -> Mates {
        Mates {
            by_sale: self.by_sale,
            mates: self.mates,
        }
    }

    /// The numbers after a path that is longer than all others, of the firm's trades: those of the second side have
    /// risen by how far they are, and those of the first side have fallen as much as their mates' have risen.
    fn far(&self, reach: &Reach, seconds: Bundle) -> [i64; POSITIONS] {
        let mut far = self.numbers;
        for s in 0..self.trades {
            if seconds.has(s as u32) {
                let distance = reach.distances[s].min(UNREACHED);
                far[s] = far[s].wrapping_add(distance);
                let first = self.mates[s];
                if first < POSITIONS {
                    far[first] = far[first].wrapping_sub(distance);
                }
            }
        }
        far
    }

    /// The certificate of a bundle that has more trades of the first side than those of the second that can be reached
    /// from `left`.
    fn unmatched(&self, left: usize, reach: &Reach) -> Certificate
        requires { left < most_own }
    {
        let mut more = Bundle::empty().toggle(left as u32);
        for s in 0..self.trades {
            let first = self.mates[s];
            if reach.seconds.has(s as u32) && first < POSITIONS {
                more = more.toggle(first as u32);
            }
        }
        unmatched(self.trades, more, reach.seconds)
    }

    /// Takes a trade of the second side in, with the highest number that exceeds no cost with these of the first.
    fn admit(&mut self, second: usize, firsts: Bundle)
        requires { second < most_own }
    {
        let mut number = FAR;
        for first in 0..self.trades {
            if firsts.has(first as u32) {
                let cost = self.cost(first, second);
                if cost < UNLISTED {
                    number = number.min(i64::from(cost).wrapping_sub(self.numbers[first]));
                }
            }
        }
        self.numbers[second] = if number < FAR { number } else { 0 };
    }

    /// Gives a trade of the first side the highest number that exceeds no cost with these of the second.
    fn raise(&mut self, first: usize, seconds: Bundle)
        requires { first < most_own }
    {
        let mut number = FAR;
        for second in 0..self.trades {
            if seconds.has(second as u32) {
                let cost = self.cost(first, second);
                if cost < UNLISTED {
                    number = number.min(i64::from(cost).wrapping_sub(self.numbers[second]));
                }
            }
        }
        self.numbers[first] = if number < FAR { number } else { 0 };
    }

    /// Matches one trade of the first side more, with one of the second side more. Where that can't be, it hands back
    /// what is reached.
    fn extend(&mut self, left: usize, seconds: Bundle) -> Option<Reach>
        requires { left < most_own }
    {
        let mut reach = Reach::new();
        let mut first = left;
        let mut so_far = 0;
        for _ in 0..=POSITIONS {
            self.look(&mut reach, first, so_far, seconds);
            let Some((s, distance)) = reach.nearest(self.trades) else {
                return Some(reach);
            };
            if self.mates[s] >= POSITIONS {
                self.shift(&reach, left, distance);
                self.rematch(&reach, s);
                return None;
            }
            reach.seconds = reach.seconds.toggle(s as u32);
            first = self.mates[s];
            so_far = distance;
        }
        Some(reach)
    }

    /// What is reached from a trade of the first side, as far as it goes.
    fn reach(&self, left: usize, seconds: Bundle) -> Reach {
        let mut reach = Reach::new();
        let mut first = left;
        let mut so_far = 0;
        for _ in 0..=POSITIONS {
            self.look(&mut reach, first, so_far, seconds);
            let Some((s, distance)) = reach.nearest(self.trades) else {
                return reach;
            };
            reach.seconds = reach.seconds.toggle(s as u32);
            first = self.mates[s];
            so_far = distance;
        }
        reach
    }

    /// Looks from a trade of the first side, which is so far away, at those of the second.
    fn look(&self, reach: &mut Reach, first: usize, so_far: i64, seconds: Bundle) {
        if first >= POSITIONS {
            return;
        }
        let rest = seconds.minus(reach.seconds);
        let base = so_far.wrapping_sub(self.numbers[first]);
        for s in 0..self.trades {
            if rest.has(s as u32) {
                let cost = self.cost(first, s);
                let distance = base
                    .wrapping_add(i64::from(cost))
                    .wrapping_sub(self.numbers[s]);
                if cost < UNLISTED && distance < reach.distances[s] {
                    reach.distances[s] = distance;
                    reach.from[s] = first;
                }
            }
        }
    }

    /// Raises the numbers of what is reached of the first side within a distance, by what is left of it, and lowers
    /// those of the second.
    fn shift(&mut self, reach: &Reach, left: usize, within: i64)
        requires { left < most_own }
    {
        self.numbers[left] = self.numbers[left].wrapping_add(within);
        for s in 0..self.trades {
            if reach.distances[s] < within {
                let by = within.wrapping_sub(reach.distances[s]);
                self.numbers[s] = self.numbers[s].wrapping_sub(by);
                let first = self.mates[s];
                if first < POSITIONS {
                    self.numbers[first] = self.numbers[first].wrapping_add(by);
                }
            }
        }
    }

    /// Matches the trade of the second side with that of the first that it was reached from, that one's mate with the
    /// one before, and so on.
    fn rematch(&mut self, reach: &Reach, second: usize) {
        let mut s = second;
        for _ in 0..self.trades {
            if s < POSITIONS {
                let first = reach.from[s] % POSITIONS;
                let before = self.mated[first];
                self.mates[s] = first;
                self.mated[first] = s;
                s = before;
            }
        }
    }
}

impl<'a> Spare<'a> {
    /// The matching of the bundle `x` of a firm that has so many trades and buys `buys`, and how far the others are, the
    /// wanted ones of the second side among them; None where no such matching is found.
    pub(crate) fn of(
        costs: &'a [i32; CELLS],
        trades: usize,
        x: Bundle,
        buys: Bundle,
        wanted: Bundle,
    ) -> Option<Spare<'a>>
        requires { trades ≤ most_own }
    {
        let purchases = x.meet(buys);
        let sales = x.minus(buys);
        let others = wanted.minus(x);
        if purchases.count() == sales.count() + 1 {
            Spare::between(
                Matching::new(costs, trades, false),
                purchases,
                sales,
                others.minus(buys),
            )
        } else if sales.count() == purchases.count() + 1 {
            Spare::between(
                Matching::new(costs, trades, true),
                sales,
                purchases,
                others.meet(buys),
            )
        } else {
            None
        }
    }

    /// Matches all of the second side, and looks how far they and the others of this side are.
    fn between(
        empty: Matching<'a>,
        firsts: Bundle,
        seconds: Bundle,
        others: Bundle,
    ) -> Option<Spare<'a>> {
        let trades = empty.trades;
        let mut matching = empty;
        let mut left = NONE;
        for first in 0..trades {
            if firsts.has(first as u32) {
                if let Some(_reach) = matching.extend(first, seconds) {
                    if left < POSITIONS {
                        return None;
                    }
                    left = first;
                }
            }
        }
        for k in 0..trades {
            if others.has(k as u32) {
                matching.admit(k, firsts);
            }
        }
        let seconds = seconds.union(others);
        if left < POSITIONS {
            matching.raise(left, seconds);
        }
        let reach = matching.reach(left, seconds);
        let numbers = PathNumbers {
            within: firsts.union(seconds),
            bought_rise: matching.by_sale,
            near: matching.numbers,
            far: matching.far(&reach, seconds),
        };
        Some(Spare {
            numbers,
            firsts,
            left,
            matching,
            reach,
        })
    }

    /// The path for the bundle with position `k` toggled, which is one of the first side in the bundle, or one of the
    /// second that was wanted.
    pub(crate) fn toggled(&self, k: usize) -> Path
        requires { k < most_own }
    {
        let end = if self.firsts.has(k as u32) && k != self.left {
            self.matching.mated[k] % POSITIONS
        } else {
            k
        };
        let distance = self.reach.distances[end];
        if k == self.left || distance == FAR {
            return Path {
                distance: if k == self.left { 0 } else { UNREACHED },
                mates: self.matching.paired(),
            };
        }
        let mut matching = self.matching;
        matching.rematch(&self.reach, end);
        Path {
            distance,
            mates: matching.paired(),
        }
    }
}
