//! What the words of the program ask for.

ghost use Rattle.std.specs.Prelude.{◌≡◌, map, string_bytes, IfSome};
ghost use Rattle.tn_run.specs.Request.{IsWithinBounds, asks_for_page, command_with, drill_request, layout_of, lines_command, page_about, page_request, pair_request, request_of, topic_of, word_page, word_request, words_page};

use crate::command::{word_command, word_layout};
use crate::numbers::number_within;
use tn_answer::Layout;
use tn_file::Command;
use tn_read_shapes::value_of_word;
use tn_said::{Page, Topic};

/// The most trades of a drill network.
const MOST_DRILLED: u32 = 64;

/// The greatest number that a drill network is drawn from.
const MOST_START: u32 = 2_147_483_647;

/// What the words of the program ask for.
#[derive(Clone, Copy)]
pub enum Request {
    /// Nothing that the program has.
    Usage,
    /// The answer of a command to a document.
    Document {
        /// What is done with the document.
        command: Command,
        /// How the answer is written.
        layout: Layout,
    },
    /// The answers of a command to documents that are lines, one after another.
    Lines(Command),
    /// A network that is drawn, and solved.
    Drill {
        /// How many trades it has.
        size: u32,
        /// The number that it is drawn from.
        start: u32,
    },
    /// The program's own cases.
    Cases,
    /// A text of the program about itself.
    Page(Page),
}

/// The command that a page is about, none where the word is none.
fn topic_of(word: &str) -> Option<Topic>
    ensures { result ≡ topic_of word.now }
{
    value_of_word(
        word,
        &[
            ("check", Topic::Check),
            ("firms", Topic::Firms),
            ("test", Topic::Test),
            ("support", Topic::Support),
            ("solve", Topic::Solve),
            ("range", Topic::Range),
            ("session", Topic::Session),
            ("judge", Topic::Judge),
            ("replay", Topic::Replay),
            ("drill", Topic::Drill),
            ("cases", Topic::Cases),
        ],
    )
}

/// The page about a command, and about all of them for `help`; none where the word is none.
fn page_about(word: &str) -> Option<Page>
    ensures { result ≡ page_about word.now }
{
    if word == "help" {
        Some(Page::Help)
    } else {
        topic_of(word).map(Page::About)
    }
}

/// The page that one word asks for, none where it asks for none.
fn word_page(word: &str) -> Option<Page>
    ensures { result ≡ word_page word.now }
{
    value_of_word(
        word,
        &[
            ("help", Page::Help),
            ("-h", Page::Help),
            ("--help", Page::Help),
            ("--version", Page::Version),
        ],
    )
}

/// Whether a word behind a command asks for its page.
fn asks_for_page(word: &str) -> bool
    ensures { result ≡ asks_for_page word.now }
{
    word == "--help" || word == "-h"
}

/// The page that two words ask for: a command with a word behind it that asks for its page, or `help` before it.
fn words_page(word: &str, next: &str) -> Option<Page>
    ensures { result ≡ words_page word.now next.now }
{
    if asks_for_page(next) {
        page_about(word)
    } else if word == "help" {
        page_about(next)
    } else {
        None
    }
}

/// What a page asks for that may be none.
fn page_request(page: Option<Page>) -> Request
    ensures request { result ≡ page_request page }
    ensures within { IsWithinBounds result }
{
    match page {
        Some(page) => Request::Page(page),
        None => Request::Usage,
    }
}

/// What one word asks for.
fn word_request(word: &str) -> Request
    ensures request { result ≡ word_request word.now }
    ensures within { IsWithinBounds result }
{
    if word == "cases" {
        return Request::Cases;
    }
    match word_command(word) {
        Some(command) => Request::Document {
            command,
            layout: Layout::Object,
        },
        None => page_request(word_page(word)),
    }
}

/// What a command asks for with one word behind it, none where it has no such word.
fn command_with(word: &str, command: Command) -> Option<Request>
    ensures request { result ≡ command_with word.now command }
    ensures within { IfSome result IsWithinBounds }
{
    if word == "--lines" {
        return Some(Request::Lines(command));
    }
    let layout = word_layout(command, word)?;
    Some(Request::Document { command, layout })
}

/// What two words ask for: a command with a word of its own behind it, or a page.
fn pair_request(word: &str, next: &str) -> Request
    ensures request { result ≡ pair_request word.now next.now }
    ensures within { IsWithinBounds result }
{
    if let Some(command) = word_command(word) {
        if let Some(request) = command_with(next, command) {
            return request;
        }
    }
    page_request(words_page(word, next))
}

/// What three words ask for: a drill of two numbers.
fn drill_request(word: &str, size: &str, start: &str) -> Request
    ensures request { result ≡ drill_request word.now size.now start.now }
    ensures within { IsWithinBounds result }
{
    if word != "drill" {
        return Request::Usage;
    }
    match (
        number_within(size, 1, MOST_DRILLED),
        number_within(start, 0, MOST_START),
    ) {
        (Some(size), Some(start)) => Request::Drill { size, start },
        (None, _) | (_, None) => Request::Usage,
    }
}

/// What the words of the program ask for.
pub fn request_of(words: &[String]) -> Request
    ensures request { result ≡ request_of (map string_bytes words.now) }
    ensures within { IsWithinBounds result }
{
    match words {
        [word] => word_request(word),
        [word, next] => pair_request(word, next),
        [word, size, start] => drill_request(word, size, start),
        [] | [_, _, _, _, ..] => Request::Usage,
    }
}

/// How the answer to a request is written: as an object, unless it asks for another layout.
pub fn layout_of(request: Request) -> Layout
    ensures { result ≡ layout_of request }
{
    match request {
        Request::Document { layout, .. } => layout,
        Request::Usage
        | Request::Lines(_)
        | Request::Drill { .. }
        | Request::Cases
        | Request::Page(_) => Layout::Object,
    }
}

/// The command that is to answer line by line, none where one answer is asked for.
pub fn lines_command(request: Request) -> Option<Command>
    ensures { result ≡ lines_command request }
{
    match request {
        Request::Lines(command) => Some(command),
        Request::Usage
        | Request::Document { .. }
        | Request::Drill { .. }
        | Request::Cases
        | Request::Page(_) => None,
    }
}
