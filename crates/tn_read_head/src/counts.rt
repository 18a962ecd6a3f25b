//! How many own trades each firm has among the trades that were read.

ghost use Rattle.std.specs.Prelude.{◌≡◌, ◌≢◌, ℕ, ◌+◌, ◌<◌, [], length, get_or, IfOk};
ghost use Rattle.tn_model.specs.InOrder.{side_in};
ghost use Rattle.tn_model.specs.Limits.{most_trades};
ghost use Rattle.tn_read_head.specs.Counts.{AreOwnCounts, one_if};

use std::alloc::Global;
use std::marker::Model;
use tn_base::OutOfMemory;
use tn_model::Ends;

/// How many own trades each firm has.
#[derive(Drop)]
pub(crate) struct OwnCounts {
    counts: Vec<u32>,
}

impl Model for OwnCounts {
    ghost use Rattle.std.specs.Prelude.{List, ℕ};

    ghost Value = { List ℕ };

    ghost view = { λ own. own.counts.items };
}

impl OwnCounts {
    /// None for each of so many firms. It fails only where memory runs out.
    #[tactic(auto, using(crate::proofs::CountLemmas::none_yet))]
    pub(crate) fn none(alloc: Global, firms: u32) -> Result<OwnCounts, OutOfMemory>
        ensures { IfOk result (AreOwnCounts firms []) }
    {
        let counts = vec![in alloc; 0; firms as usize]?;
        Ok(OwnCounts { counts })
    }

    /// How many own trades a firm has.
    pub(crate) fn of(&self, f: u32) -> u32
        requires { f < length self.now }
        ensures { result ≡ get_or self.now f 0 }
    {
        self.counts[f as usize]
    }

    /// Counts one more own trade of a firm.
    fn count_at(&mut self, f: u32)
        requires firm { f < length self.old }
        requires few { get_or self.old f 0 < most_trades }
        ensures counted { length self.new ≡ length self.old }
        ensures own { get_or self.new f 0 ≡ get_or self.old f 0 + 1 }
        ensures others { (g : ℕ) → g ≢ f → get_or self.new g 0 ≡ get_or self.old g 0 }
    {
        self.counts[f as usize] += 1;
    }

    /// Counts a trade at its two firms.
    pub(crate) fn count(&mut self, ends: Ends)
        requires seller { ends.seller < length self.old }
        requires buyer { ends.buyer < length self.old }
        requires apart { ends.seller ≢ ends.buyer }
        requires few { (f : ℕ) → f < length self.old → get_or self.old f 0 < most_trades }
        ensures counted { length self.new ≡ length self.old }
        ensures each { (f : ℕ) → get_or self.new f 0 ≡ get_or self.old f 0 + one_if (side_in f ends) }
    {
        self.count_at(ends.seller);
        self.count_at(ends.buyer);
    }
}
