//! Texts that are one of some words.

ghost use Rattle.std.specs.Prelude.{◌≡◌, bytes_eq, option_map};
ghost use Rattle.std.specs.List.{find, list_any};
ghost use Rattle.tn_said.specs.Words.{word_text};

use tn_said::Word;

/// What stands beside the first word that is the text.
pub fn value_of_word<T: Copy>(text: &str, words: &[(&str, T)]) -> Option<T>
    ensures { result ≡ option_map (λ it. it.1) (find (λ it. bytes_eq text.now it.0.now) words.now) }
{
    words.iter().find(|it| text == it.0).map(|it| it.1)
}

/// Whether a key is the name of one of some members.
pub(crate) fn is_one_of(key: &str, words: &[Word]) -> bool
    ensures { result ≡ list_any (λ word. bytes_eq key.now (word_text word)) words.now }
{
    words.iter().any(|word| key == word.text())
}
