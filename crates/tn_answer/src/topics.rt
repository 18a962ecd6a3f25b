//! The pages about commands: what each reads, an example, its answers, its words and its statuses.

ghost use Rattle.std.specs.Prelude.{◌≡◌};
ghost use Rattle.tn_answer.specs.Pages.{lines_text};
ghost use Rattle.tn_answer.specs.Topics.{topic_lines};
ghost use Rattle.tn_said.specs.declared.said.Topic.{Topic};

use tn_said::Topic;

/// The lines of a page as a text, and below them what the other statuses mean.
macro_rules! page {
    ($($line:literal,)*) => {
        concat!(
            $($line, "\n",)*
            "\n",
            "Status 1: the document has a fault; 2: the words are no command; 3: reading failed;\n",
            "4: writing failed; 5: memory ran out.\n",
        )
    };
}

fn check_text() -> &'static str
    ensures { result.now ≡ lines_text (topic_lines Topic.Check) }
{
    page!(
        "market check: Is the arrangement an equilibrium?",
        "",
        "  Reads    a document with an arrangement: the trades that are on, and a price for each trade",
        "  Example  market check < examples/used-cars.json",
        "  Answers  equilibrium, with the surplus; or better, with the first firm that would rather have",
        "           another bundle, a best one, and what it gains; or impossible, with the first firm",
        "           that can't have its bundle",
        "  Words    --lines: each line is a document",
        "  Status   0 an equilibrium; 6 none",
    )
}

fn firms_text() -> &'static str
    ensures { result.now ≡ lines_text (topic_lines Topic.Firms) }
{
    page!(
        "market firms: What does each firm earn, and what would it rather have?",
        "",
        "  Reads    a document with an arrangement; its tables may fail the exchange property",
        "  Example  market firms < examples/no-clearing-prices.json",
        "  Answers  firms: of each what it has, what that is worth to it, what it earns, a best bundle,",
        "           and what it would gain; and how many are content",
        "  Words    --csv: rows; --lines: each line is a document",
        "  Status   0 all firms are content; 6 one isn't",
    )
}

fn test_text() -> &'static str
    ensures { result.now ≡ lines_text (topic_lines Topic.Test) }
{
    page!(
        "market test: Does every firm meet the exchange property?",
        "",
        "  Reads    a document",
        "  Example  market test < examples/complements.json",
        "  Answers  accepted; or exchange_fails, with the first firm that doesn't, and where it fails",
        "  Words    --lines: each line is a document",
        "  Status   0 every firm does; 6 one doesn't",
    )
}

fn support_text() -> &'static str
    ensures { result.now ≡ lines_text (topic_lines Topic.Support) }
{
    page!(
        "market support: Which prices make the arrangement's trades an equilibrium?",
        "",
        "  Reads    a document with an arrangement, of which only the trades that are on count",
        "  Example  market support < examples/one-trade.json",
        "  Answers  prices, one for each trade; or cycle, which shows that there are none",
        "  Words    --csv: rows; --lines: each line is a document",
        "  Status   0 there are prices; 6 there are none",
    )
}

fn solve_text() -> &'static str
    ensures { result.now ≡ lines_text (topic_lines Topic.Solve) }
{
    page!(
        "market solve: Which trades and prices are an equilibrium?",
        "",
        "  Reads    a document",
        "  Example  market solve < examples/used-cars.json",
        "  Answers  solved, with the trades that are on, a price for each trade, and the surplus",
        "  Words    --csv: rows; --csv=wide: rows with the sellers and the buyers;",
        "           --lines: each line is a document",
        "  Status   0 here is one: there always is",
    )
}

fn range_text() -> &'static str
    ensures { result.now ≡ lines_text (topic_lines Topic.Range) }
{
    page!(
        "market range: How low and how high may each price be in an equilibrium?",
        "",
        "  Reads    a document",
        "  Example  market range < examples/used-cars.json",
        "  Answers  ranges: of each trade the lowest and the highest price, null where there is no bound,",
        "           and the trades by which each bound comes about",
        "  Words    --csv: rows; --lines: each line is a document",
        "  Status   0 here they are: there always are some",
    )
}

fn session_text() -> &'static str
    ensures { result.now ≡ lines_text (topic_lines Topic.Session) }
{
    page!(
        "market session: Which equilibria follow as trades and firms come and go?",
        "",
        "  Reads    a document with edits: trades that are admitted or barred, firms that leave or join",
        "  Example  market session < examples/used-cars-edits.json",
        "  Answers  session: after each edit an equilibrium of the trades that can then be used",
        "  Words    --lines: each line is a document",
        "  Status   0 here they are: there always are some",
    )
}

fn judge_text() -> &'static str
    ensures { result.now ≡ lines_text (topic_lines Topic.Judge) }
{
    page!(
        "market judge: Would firms drop contracts of the outcome, or sign others?",
        "",
        "  Reads    a document with an outcome: the contracts that are signed, and what their prices are",
        "           over",
        "  Example  market judge < examples/used-cars-signed.json",
        "  Answers  drops, with a firm that would rather keep only some of its contracts; or completes,",
        "           with prices at which the signed trades are an equilibrium; or blocks, with contracts",
        "           that their firms would rather sign",
        "  Words    --lines: each line is a document",
        "  Status   0 the outcome lasts; 6 it doesn't",
    )
}

fn replay_text() -> &'static str
    ensures { result.now ≡ lines_text (topic_lines Topic.Replay) }
{
    page!(
        "market replay: Is the claim valid, and if not, why?",
        "",
        "  Reads    a document with a claim: an answer to it, whoever gave it",
        "  Example  market replay < examples/claim-valid.json",
        "  Answers  valid; or invalid, with the first condition that fails",
        "  Words    --lines: each line is a document",
        "  Status   0 the claim is valid; 6 it isn't",
    )
}

fn drill_text() -> &'static str
    ensures { result.now ≡ lines_text (topic_lines Topic.Drill) }
{
    page!(
        "market drill: How much can trade bring in a network that is drawn from two numbers?",
        "",
        "  Reads    nothing",
        "  Example  market drill 64 7",
        "  Answers  drill, with the surplus of the network",
        "  Words    a size, from 1 to 64, and a start, from 0 to 2147483647",
        "  Status   0 here it is",
    )
}

fn cases_text() -> &'static str
    ensures { result.now ≡ lines_text (topic_lines Topic.Cases) }
{
    page!(
        "market cases: Does this copy pass the cases that it carries?",
        "",
        "  Reads    nothing",
        "  Example  market cases",
        "  Answers  cases, with how many there are, and the numbers of those that fail",
        "  Words    none",
        "  Status   0 all pass; 6 one fails",
    )
}

/// The text of the page about a command.
pub(crate) fn topic_text(topic: Topic) -> &'static str
    ensures { result.now ≡ lines_text (topic_lines topic) }
{
    match topic {
        Topic::Check => check_text(),
        Topic::Firms => firms_text(),
        Topic::Test => test_text(),
        Topic::Support => support_text(),
        Topic::Solve => solve_text(),
        Topic::Range => range_text(),
        Topic::Session => session_text(),
        Topic::Judge => judge_text(),
        Topic::Replay => replay_text(),
        Topic::Drill => drill_text(),
        Topic::Cases => cases_text(),
    }
}
