//! The words of a run, from bytes.

ghost use Rattle.std.specs.Prelude.{◌≡◌, IfOk, map, string_bytes};
ghost use Rattle.tn_page.specs.Words.{words_in};

use std::alloc::Global;
use std::str;
use tn_base::OutOfMemory;

/// The words, which bytes 0 part; none where the bytes aren't UTF-8.
pub fn words_of(alloc: Global, bytes: &[u8]) -> Result<Vec<String>, OutOfMemory>
    ensures { IfOk result (λ words. map string_bytes words.items ≡ words_in bytes.now) }
{
    let mut words = Vec::new(alloc);
    let Ok(text) = str::from_utf8(bytes) else {
        return Ok(words);
    };
    for word in text.split('\0') {
        words.push(String::from_str(alloc, word)?)?;
    }
    Ok(words)
}
