//! What is said on standard error of words that are no command: at which word they stop being one, and what may have
//! been meant. No clause speaks of it.

use std::fmt::{self, Display, Formatter, Write};

/// The words that commands begin with.
const COMMANDS: [&str; 14] = [
    "check",
    "firms",
    "test",
    "support",
    "solve",
    "range",
    "session",
    "judge",
    "replay",
    "drill",
    "cases",
    "help",
    "--help",
    "--version",
];

/// The words that may stand behind a command.
const OPTIONS: [&str; 4] = ["--csv", "--csv=wide", "--lines", "--help"];

/// Where words stop being a command.
#[derive(Clone, Copy)]
pub enum Stop<'a> {
    /// There is no word.
    Nothing,
    /// The first word is no command; the command that is written nearly so.
    NoCommand(&'a str, Option<&'static str>),
    /// The word has a blank behind a command.
    Joined(&'a str),
    /// A file is named, behind this command.
    File(&'a str, &'a str),
    /// There is no page about the word; the command that is written nearly so.
    NoPage(&'a str, Option<&'static str>),
    /// A drill lacks its two numbers, or one is out of bounds.
    Drill,
    /// The command has no such rows.
    NoRows(&'a str, &'a str),
    /// The command has no such word behind it; the one that is written nearly so.
    NoOption(&'a str, &'a str, Option<&'static str>),
    /// One word more than may stand behind this one.
    TooMany(&'a str, &'a str),
}

impl Display for Stop<'_> {
    fn fmt<W: Write>(&self, f: &mut Formatter<W>) -> fmt::Result {
        match *self {
            Stop::Nothing => write!(f, "a command is wanted, as in: market solve < file.json"),
            Stop::NoCommand(word, like) => write!(f, "'{word}' is no command{}", Meant(like)),
            Stop::Joined(word) => write!(f, "'{word}' came as one word: write it without quotes"),
            Stop::File(command, file) => write!(
                f,
                "the document is read from standard input: market {command} < {file}"
            ),
            Stop::NoPage(word, like) => write!(f, "no page is about '{word}'{}", Meant(like)),
            Stop::Drill => write!(
                f,
                "drill wants a size from 1 to 64 and a start from 0 to 2147483647: market drill 64 7"
            ),
            Stop::NoRows(command, word) => write!(
                f,
                "{command} has no {word}: firms, support, solve and range have --csv, and solve --csv=wide"
            ),
            Stop::NoOption(command, word, like) => {
                write!(f, "'{word}' can't stand behind {command}{}", Meant(like))
            }
            Stop::TooMany(before, word) => {
                write!(f, "'{word}' is one word too many behind {before}")
            }
        }
    }
}

/// What may have been meant.
#[derive(Clone, Copy)]
struct Meant(Option<&'static str>);

impl Display for Meant {
    fn fmt<W: Write>(&self, f: &mut Formatter<W>) -> fmt::Result {
        match self.0 {
            Some(like) => write!(f, ": did you mean {like}?"),
            None => Ok(()),
        }
    }
}

/// Where words that are no command stop being one.
pub fn stop_of(words: &[String]) -> Stop<'_> {
    match words {
        [] => Stop::Nothing,
        [word, rest @ ..] => match word.as_str() {
            "help" => stop_of_help(rest),
            "drill" => Stop::Drill,
            "cases" | "-h" | "--help" | "--version" => stop_behind(word, rest),
            command if is_known(command) => stop_of_command(command, rest),
            other => stop_at(other),
        },
    }
}

/// Where the first word is no command.
fn stop_at(word: &str) -> Stop<'_> {
    if is_file(word) {
        Stop::File("solve", word)
    } else if COMMANDS.iter().any(|command| is_joined(word, command)) {
        Stop::Joined(word)
    } else {
        Stop::NoCommand(word, like(word, &COMMANDS))
    }
}

/// Where words behind `help` ask for no page.
fn stop_of_help(rest: &[String]) -> Stop<'_> {
    match rest {
        [] => Stop::Nothing,
        [word] => Stop::NoPage(word, like(word, &COMMANDS)),
        [before, word, ..] => Stop::TooMany(before, word),
    }
}

/// Where a word can't be followed by another one.
fn stop_behind<'a>(before: &'a str, rest: &'a [String]) -> Stop<'a> {
    match rest {
        [] => Stop::Nothing,
        [word, ..] => Stop::TooMany(before, word),
    }
}

/// Where the words behind a command that reads a document go wrong.
fn stop_of_command<'a>(command: &'a str, rest: &'a [String]) -> Stop<'a> {
    match rest.iter().find(|word| is_file(word)) {
        Some(file) => Stop::File(command, file),
        None => match rest {
            [] => Stop::Nothing,
            [word] => stop_at_option(command, word),
            [before, word, ..] => Stop::TooMany(before, word),
        },
    }
}

/// Where the one word behind a command isn't one of its own.
fn stop_at_option<'a>(command: &'a str, word: &'a str) -> Stop<'a> {
    if word == "--csv" || word == "--csv=wide" {
        Stop::NoRows(command, word)
    } else {
        Stop::NoOption(command, word, like(word, &OPTIONS))
    }
}

fn is_known(word: &str) -> bool {
    COMMANDS.iter().any(|command| word == *command)
}

/// Whether a word is the name of a file, most likely.
fn is_file(word: &str) -> bool {
    word.bytes().any(|byte| byte == b'.' || byte == b'/')
}

/// Whether a word is a command with a blank behind it, and more.
fn is_joined(word: &str, command: &str) -> bool {
    match word.strip_prefix(command) {
        Some(rest) => rest.starts_with(" "),
        None => false,
    }
}

/// The first of some words that is written nearly as this one.
fn like(word: &str, known: &[&'static str]) -> Option<&'static str> {
    known.iter().find(|it| is_near(word, it)).copied()
}

/// Whether two words are alike at both ends: what is between has at most two bytes, and fewer than are alike.
fn is_near(word: &str, known: &str) -> bool {
    let begin = word
        .bytes()
        .zip(known.bytes())
        .take_while(|(a, b)| a == b)
        .count();
    let end = word
        .bytes()
        .rev()
        .zip(known.bytes().rev())
        .take_while(|(a, b)| a == b)
        .count();
    let alike = begin.saturating_add(end);
    let between = word.len().max(known.len()).saturating_sub(alike);
    between <= 2 && between < alike
}
