//! Numbers among the words of the program.

ghost use Rattle.std.specs.Prelude.{◌≡◌, ◌≤◌, ◌==◌, get_or, IfSome};
ghost use Rattle.std.specs.List.{list_all};
ghost use Rattle.std.specs.Char.{is_ascii_digit};
ghost use Rattle.tn_run.specs.Words.{is_numeral, number_within};

fn is_digit(byte: u8) -> bool
    ensures { result ≡ is_ascii_digit byte }
{
    byte.is_ascii_digit()
}

fn has_digits_alone(word: &str) -> bool
    ensures { result ≡ list_all is_ascii_digit word.now }
{
    word.bytes().all(|byte| is_digit(byte))
}

fn begins_with_zero(word: &str) -> bool
    ensures { result ≡ (get_or word.now 0 0 == 48) }
{
    word.as_bytes().first() == Some(&b'0')
}

/// Whether a word is a number's text: digits, and no zero before others.
fn is_numeral(word: &str) -> bool
    ensures { result ≡ is_numeral word.now }
{
    !word.is_empty() && has_digits_alone(word) && (word.len() == 1 || !begins_with_zero(word))
}

/// The number whose text a word is, None where it isn't one from the least to the most.
pub fn number_within(word: &str, least: u32, most: u32) -> Option<u32>
    ensures number { result ≡ number_within least most word.now }
    ensures within { IfSome result (λ number. (least ≤ number) × (number ≤ most)) }
{
    if !is_numeral(word) {
        return None;
    }
    match word.parse::<u32>() {
        Ok(number) => {
            if least <= number && number <= most {
                Some(number)
            } else {
                None
            }
        }
        Err(_) => None,
    }
}
