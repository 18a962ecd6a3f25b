//! What a caller is told of a text.

ghost use Rattle.std.specs.Prelude.{◌≤◌, length};
ghost use Rattle.tn_page.specs.Told.{IsTold};

/// What stands in place of the status where the text is longer than the room for it. No run has this status.
const LONGER: u64 = 8;

/// Puts a text at the start of `out`, and answers 256 times its length, and the status. Where it is longer than `out`,
/// that stays as it was, and `LONGER` stands in place of the status. A text has at most 4,294,967,296 bytes.
pub fn tell(status: u8, text: &[u8], out: &mut [u8]) -> u64
    requires { length text.now ≤ 4294967296 }
    ensures { IsTold text.now status out.old out.new result }
{
    let count = text.len();
    let size = count as u64 * 256;
    if count > out.len() {
        return size + LONGER;
    }
    out[..count].copy_from_slice(text);
    size + status as u64
}
