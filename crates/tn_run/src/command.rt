//! The words of the commands that read a document.

ghost use Rattle.std.specs.Prelude.{◌≡◌};
ghost use Rattle.tn_run.specs.Words.{case_command, case_layout, rows_layout, word_command, word_layout};

use tn_answer::Layout;
use tn_file::Command;
use tn_read_shapes::value_of_word;

/// The command that one word is, none where it is none.
pub(crate) fn word_command(word: &str) -> Option<Command>
    ensures { result ≡ word_command word.now }
{
    value_of_word(
        word,
        &[
            ("check", Command::Check),
            ("firms", Command::Firms),
            ("judge", Command::Judge),
            ("range", Command::Range),
            ("replay", Command::Replay),
            ("session", Command::Session),
            ("solve", Command::Solve),
            ("support", Command::Support),
            ("test", Command::Test),
        ],
    )
}

/// Rows, if a word asks for them.
fn rows_layout(word: &str) -> Option<Layout>
    ensures { result ≡ rows_layout word.now }
{
    if word == "--csv" {
        Some(Layout::Rows)
    } else {
        None
    }
}

/// The layout that a word behind a command asks for, none where the command has no such layout.
pub(crate) fn word_layout(command: Command, word: &str) -> Option<Layout>
    ensures { result ≡ word_layout command word.now }
{
    match command {
        Command::Firms | Command::Range | Command::Support => rows_layout(word),
        Command::Solve => {
            if word == "--csv=wide" {
                Some(Layout::WideRows)
            } else {
                rows_layout(word)
            }
        }
        Command::Check | Command::Judge | Command::Replay | Command::Session | Command::Test =>
            None,
    }
}

/// The command of a case, whose text has a blank between two words; none where it is none.
pub fn case_command(text: &str) -> Option<Command>
    ensures { result ≡ case_command text.now }
{
    if text == "solve --csv" {
        Some(Command::Solve)
    } else {
        word_command(text)
    }
}

/// How the answer of a case is written.
pub fn case_layout(text: &str) -> Layout
    ensures { result ≡ case_layout text.now }
{
    if text == "solve --csv" {
        Layout::Rows
    } else {
        Layout::Object
    }
}
