//! What a source of bytes promises.
ghost use Rattle.std.specs.Prelude.{ℕ, List, Option, ◌≤◌, OnErr};
ghost use Rattle.std.specs.Io.{ReadsAtMost};
ghost use Rattle.std.specs.Io.KnownBytes.{ReadConsumes};
ghost use Rattle.tn_io.specs.Counts.{Rose};

/// A read failed. It gave nothing.
#[derive(Clone, Copy, PartialEq, Eq)]
pub struct ReadFailed;

/// Where bytes are read from.
pub trait Source {
    /// The bytes not yet taken, where the source tells them. One that tells them goes on telling.
    ghost left: { Self → Option (List ℕ) };

    /// How often reading has failed: a count that never falls.
    ghost faults: { Self → ℕ };

    /// Moves the next bytes to the front of `into`, and answers how many they are.
    ///
    /// `Ok(0)` is the end of input, unless `into` is empty. `ReadFailed` comes only where `faults`
    /// rose in this call.
    fn read(&mut self, into: &mut [u8]) -> Result<usize, ReadFailed>
        ensures bound { ReadsAtMost result into.new }
        ensures bytes { ReadConsumes (left self.old) (left self.new) result into.new }
        ensures failed { OnErr result (Rose (faults self.old) (faults self.new)) }
        ensures later { faults self.old ≤ faults self.new };
}
