//! What a sink of bytes promises.
ghost use Rattle.std.specs.Prelude.{ℕ, List, [], Option, Ok, ◌≡◌, ◌≤◌, ◌<◌, length, take, IfOk, OnErr};
ghost use Rattle.std.specs.Io.{WritesAtMost};
ghost use Rattle.tn_io.specs.Counts.{Rose};
ghost use Rattle.tn_io.specs.Sink.{Grows};

/// A write failed. It took nothing.
#[derive(Clone, Copy, PartialEq, Eq)]
pub struct WriteFailed;

/// Where bytes are written to.
pub trait Sink {
    /// The bytes written so far, where the sink tells them. One that has stopped telling doesn't
    /// begin again.
    ghost written: { Self → Option (List ℕ) };

    /// How often writing has failed: a count that never falls.
    ghost faults: { Self → ℕ };

    /// Takes bytes from the front of `piece`, and answers how many it took: at least one, unless
    /// `piece` is empty.
    ///
    /// `WriteFailed` comes only where `faults` rose in this call. A sink that can take nothing
    /// answers so.
    fn write(&mut self, piece: &[u8]) -> Result<usize, WriteFailed>
        ensures bound { WritesAtMost result piece.now }
        ensures progress { IfOk result (λ count. 0 < length piece.now → 0 < count) }
        ensures bytes { IfOk result (λ count.
            Grows (written self.old) (written self.new) (take count piece.now)) }
        ensures unchanged { OnErr result (written self.new ≡ written self.old) }
        ensures empty { piece.now ≡ [] → result ≡ Ok 0 }
        ensures failed { OnErr result (Rose (faults self.old) (faults self.new)) }
        ensures later { faults self.old ≤ faults self.new };
}
