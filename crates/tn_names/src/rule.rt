//! The rule for a name.

ghost use Rattle.std.specs.Prelude.{◌≡◌};
ghost use Rattle.std.specs.List.{list_all};
ghost use Rattle.tn_names.specs.Names.{is_name, is_name_byte};

/// The most characters of a name.
const MOST_LETTERS: usize = 32;

/// Whether a text may be a name: it has 1 to 32 characters, each an ASCII letter, an ASCII digit, `_`, `-` or `.`.
pub fn is_name(text: &str) -> bool
    ensures { result ≡ is_name text.now }
{
    !text.is_empty() && text.len() <= MOST_LETTERS && has_name_bytes(text)
}

fn has_name_bytes(text: &str) -> bool
    ensures { result ≡ list_all is_name_byte text.now }
{
    text.bytes().all(|byte| is_name_byte(byte))
}

fn is_name_byte(byte: u8) -> bool
    ensures { result ≡ is_name_byte byte }
{
    byte.is_ascii_alphanumeric() || matches!(byte, b'_' | b'-' | b'.')
}
