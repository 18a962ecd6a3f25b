//! Reading a source line by line.
ghost use Rattle.std.specs.Prelude.{ℕ, ◌≡◌, ◌≢◌, ◌==◌, ◌<◌, ◌≤◌, ◌^◌, ◌+◌, ◌++◌, ◌∷◌, [], List, Err, Ok, false, true, length, take, drop, nat_lt, position, IfOk, IfSome, IfNone, OnOk, OnErr, IsErrOf};
ghost use Rattle.std.specs.Io.KnownBytes.{Consumes, IsAtEnd, prepend_known};
ghost use Rattle.std.specs.List.{position_or_len};
ghost use Rattle.tn_io.specs.Counts.{Rose};
ghost use Rattle.tn_io.specs.Lines.{PassesOver, TakesLines, TakesPart};
ghost use Rattle.tn_io.specs.declared.lines.LineStop.{LineStop};
ghost use Rattle.tn_io.specs.declared.lines.LineStop.TheVariants.{Failed, TooLong, OutOfMemory};

use crate::source::{ReadFailed, Source};
use std::alloc::Global;
use std::marker::Model;
use thiserror::Error;

/// Why a line wasn't given.
#[derive(Clone, Copy, Debug, PartialEq, Eq, Error)]
pub enum LineStop {
    /// A read failed. What was read of the line is lost, and nothing else.
    #[error("reading failed")]
    Failed,
    /// The line has more bytes than the limit allows. It was passed over.
    #[error("the line is too long")]
    TooLong,
    /// Memory ran out. The line was passed over.
    #[error("memory ran out")]
    OutOfMemory,
}

impl From<ReadFailed> for LineStop {
    ghost from_gives = { λ _ stop. stop ≡ Failed };

    fn from(_failed: ReadFailed) -> LineStop {
        LineStop::Failed
    }
}

/// How many bytes one read asks for at most.
const PIECE: usize = 4096;

/// Where the first line feed stands.
fn first_feed(bytes: &[u8]) -> Option<usize>
    ensures { result ≡ position (λ byte. byte == 10) bytes.now }
{
    bytes.iter().position(|byte| *byte == b'\n')
}

/// How many bytes stand before the first line feed: all where there is none.
fn before_feed(bytes: &[u8]) -> usize
    ensures count { result ≡ position_or_len (λ byte. byte == 10) bytes.now }
    ensures within { result ≤ length bytes.now }
{
    match first_feed(bytes) {
        Some(count) => count,
        None => bytes.len(),
    }
}

/// A reader of lines: what was read of a source and not yet taken, at most one piece. Contracts see it as those bytes.
#[derive(Drop)]
pub struct LineReader {
    piece: [u8; PIECE],
    from: usize,
    to: usize,
}

impl Model for LineReader {
    ghost use Rattle.std.specs.Prelude.{ℕ, List, ◌≤◌, length, slice_range};

    ghost Value = { List ℕ };

    ghost view = { λ a. slice_range a.piece a.from a.to };

    ghost invariant = { λ a. (a.from ≤ a.to) × (a.to ≤ length a.piece) };
}

impl LineReader {
    /// A reader that has read nothing.
    pub fn new() -> LineReader
        ensures { result ≡ [] }
    {
        LineReader {
            piece: [0; PIECE],
            from: 0,
            to: 0,
        }
    }

    /// The bytes read ahead.
    fn ahead(&self) -> &[u8]
        ensures { result.now ≡ self.now }
    {
        &self.piece[self.from..self.to]
    }

    /// Lets go of the first bytes read ahead.
    fn skip(&mut self, count: usize)
        requires { count ≤ length self.old }
        ensures { self.new ≡ drop count self.old }
    {
        self.from += count;
    }

    /// Reads a piece, unless some bytes are read ahead. Whether some are then: none are only at the end of input. No
    /// byte is lost, whatever comes of the read; after one that failed nothing is read ahead.
    fn fill<S: Source>(&mut self, source: &mut S) -> Result<bool, ReadFailed>
        ensures some { IfOk result (λ some. some ≡ true → 0 < length self.new) }
        ensures kept { Consumes
            (prepend_known self.old (S.left source.old)) (prepend_known self.new (S.left source.new)) [] }
        ensures none { result ≢ Ok true → self.new ≡ [] }
        ensures end { IfOk result (λ some. some ≡ false
            → IsAtEnd (prepend_known self.new (S.left source.new))) }
        ensures failed { OnErr result (Rose (S.faults source.old) (S.faults source.new)) }
        ensures later { S.faults source.old ≤ S.faults source.new }
    {
        if self.from == self.to {
            let count = source.read(&mut self.piece)?;
            self.from = 0;
            self.to = count;
        }
        Ok(self.from < self.to)
    }

    /// Passes over the rest of a line and the line feed that ends it, or what there is.
    fn pass_over<S: Source>(&mut self, source: &mut S) -> Result<(), ReadFailed>
        ensures passed { OnOk result ((line : List ℕ) × PassesOver
            (prepend_known self.old (S.left source.old)) (prepend_known self.new (S.left source.new)) line) }
        ensures part { OnErr result ((self.new ≡ [])
            × TakesPart (prepend_known self.old (S.left source.old)) (S.left source.new)) }
        ensures failed { OnErr result (Rose (S.faults source.old) (S.faults source.new)) }
        ensures later { S.faults source.old ≤ S.faults source.new }
    {
        for _turn in 0..u64::MAX {
            if !self.fill(source)? {
                return Ok(());
            }
            let count = before_feed(self.ahead());
            if count < self.ahead().len() {
                self.skip(count + 1);
                return Ok(());
            }
            self.skip(count);
        }
        Ok(())
    }

    /// Moves the bytes read ahead, up to the first line feed, to the end of a line, and passes over that line feed.
    /// Whether there was one. Where they don't go there, they are passed over alone.
    fn take_part(&mut self, line: &mut Vec<u8>, limit: usize) -> Result<bool, LineStop>
        requires { length line.old.items ≤ limit }
        ensures within { OnOk result (length line.new.items ≤ limit) }
        ensures taken { OnOk result (line.new.items
            ≡ line.old.items ++ take (position_or_len (λ byte. byte == 10) self.old) self.old) }
        ensures ended { IfOk result (λ ended. ended
            ≡ nat_lt (position_or_len (λ byte. byte == 10) self.old) (length self.old)) }
        ensures rest { IfOk result (λ ended. self.new ≡ drop (position_or_len (λ byte. byte == 10) self.old + 1)
            self.old) }
        ensures passed { OnErr result (self.new
            ≡ drop (position_or_len (λ byte. byte == 10) self.old) self.old) }
        ensures some { OnErr result (0 < position_or_len (λ byte. byte == 10) self.old) }
        ensures too_long { IsErrOf result LineStop.TooLong
            → limit < length line.old.items + position_or_len (λ byte. byte == 10) self.old }
        ensures read { result ≢ Err LineStop.Failed }
    {
        let ahead = self.ahead();
        let count = before_feed(ahead);
        let is_ended = count < ahead.len();
        if count > limit - line.len() {
            self.skip(count);
            return Err(LineStop::TooLong);
        }
        if line.extend_from_slice(&ahead[..count]).is_err() {
            self.skip(count);
            return Err(LineStop::OutOfMemory);
        }
        self.skip(if is_ended { count + 1 } else { count });
        Ok(is_ended)
    }

    /// The next line of a source that this reader alone reads, of at most `limit` bytes; none at the end of input. A
    /// line feed ends a line and isn't part of it; a last line needs none.
    ///
    /// `Failed` comes only where the source's count of faults rose in this call, and `TooLong` only at a line of more
    /// than `limit` bytes. `limit` is below 2^31.
    pub fn next_line<S: Source>(
        &mut self,
        alloc: Global,
        source: &mut S,
        limit: usize,
    ) -> Result<Option<Vec<u8>>, LineStop>
        requires { limit < 2 ^ 31 }

        ensures line { IfOk result (λ next. IfSome next (λ line. TakesLines
            (prepend_known self.old (S.left source.old)) (prepend_known self.new (S.left source.new))
            (line.items ∷ []))) }
        ensures within { IfOk result (λ next. IfSome next (λ line. length line.items ≤ limit)) }
        ensures end { IfOk result (λ next. IfNone next (IsAtEnd (prepend_known self.old (S.left source.old)))) }
        ensures rest { IfOk result (λ next. IfNone next ((self.new ≡ [])
            × Consumes (prepend_known self.old (S.left source.old)) (S.left source.new) [])) }

        // A line that isn't given is passed over.
        ensures too_long { IsErrOf result LineStop.TooLong → (line : List ℕ) × (limit < length line) × TakesLines
            (prepend_known self.old (S.left source.old)) (prepend_known self.new (S.left source.new)) (line ∷ []) }
        ensures out_of_memory { IsErrOf result LineStop.OutOfMemory → (line : List ℕ) × TakesLines
            (prepend_known self.old (S.left source.old)) (prepend_known self.new (S.left source.new)) (line ∷ []) }

        // A failure has its cause in the source. What was read of the line is gone, and no byte beside it: the source
        // has all that comes after that, and nothing is read ahead.
        ensures part { IsErrOf result LineStop.Failed → (self.new ≡ [])
            × TakesPart (prepend_known self.old (S.left source.old)) (S.left source.new) }
        ensures failed { IsErrOf result LineStop.Failed → Rose (S.faults source.old) (S.faults source.new) }
        ensures later { S.faults source.old ≤ S.faults source.new }
    {
        let mut line = Vec::new(alloc);
        // A turn that doesn't return makes the line longer, and it is within the limit: so this ends.
        while self.fill(source)? {
            match self.take_part(&mut line, limit) {
                Ok(false) => {}
                Ok(true) => return Ok(Some(line)),
                Err(stop) => {
                    self.pass_over(source)?;
                    return Err(stop);
                }
            }
        }
        if line.is_empty() {
            return Ok(None);
        }
        Ok(Some(line))
    }
}
