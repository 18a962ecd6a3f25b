//! The pages: what the program tells of itself.

ghost use Rattle.std.specs.Prelude.{◌≡◌};
ghost use Rattle.tn_answer.specs.AnswerText.{answer_line};
ghost use Rattle.tn_answer.specs.declared.layout.Layout.{Layout};
ghost use Rattle.tn_answer.specs.Pages.{help_lines, lines_text, page_lines, version_lines};
ghost use Rattle.tn_names.specs.Names.{NameLists};

use crate::topics::topic_text;
use tn_said::{Page, Said};

/// What can be asked: each command, with an example.
fn help_text() -> &'static str
    ensures { result.now ≡ lines_text help_lines }
{
    concat!(
        "market finds, checks and judges equilibria of trading networks.\n",
        "\n",
        "  check      Is the arrangement an equilibrium?\n",
        "             market check < examples/used-cars.json\n",
        "  firms      What does each firm earn, and what would it rather have?\n",
        "             market firms < examples/no-clearing-prices.json\n",
        "  test       Does every firm meet the exchange property?\n",
        "             market test < examples/complements.json\n",
        "  support    Which prices make the arrangement's trades an equilibrium?\n",
        "             market support < examples/one-trade.json\n",
        "  solve      Which trades and prices are an equilibrium? With --csv it writes rows.\n",
        "             market solve --csv < examples/used-cars.json\n",
        "  range      How low and how high may each price be in an equilibrium?\n",
        "             market range < examples/used-cars.json\n",
        "  session    Which equilibria follow as trades and firms come and go?\n",
        "             market session < examples/used-cars-edits.json\n",
        "  judge      Would firms drop contracts of the outcome, or sign others?\n",
        "             market judge < examples/used-cars-signed.json\n",
        "  replay     Is the claim valid, and if not, why?\n",
        "             market replay < examples/claim-valid.json\n",
        "  drill      How much can trade bring in a network that is drawn from two numbers?\n",
        "             market drill 64 7\n",
        "  cases      Does this copy pass the cases that it carries?\n",
        "             market cases\n",
        "  help       What can be asked? With a command behind it: more of that one.\n",
        "             market help solve\n",
        "  -h         The same.\n",
        "             market -h\n",
        "  --help     The same.\n",
        "             market --help\n",
        "  --version  Which program is this, and which kit proved it?\n",
        "             market --version\n",
        "\n",
        "From check to replay a document is read from standard input; the others read nothing.\n",
        "With --lines behind the command, as in market check --lines, each line is a document.\n",
        "With --csv behind firms, support, solve or range the answer is rows, where it has some;\n",
        "in those of market solve --csv=wide stand the sellers and the buyers too.\n",
        "The answer goes to standard output.\n",
    )
}

/// The versions of the program and of the kit that proved it.
fn version_text() -> &'static str
    ensures { result.now ≡ lines_text version_lines }
{
    concat!("market 2.1.0\n", "rattle-kit-13f logic dac8208d650f15bf\n")
}

/// The lines of a page.
pub(crate) fn page_lines(page: Page) -> &'static [u8]
    ensures { result.now ≡ lines_text (page_lines page) }
{
    match page {
        Page::Help => help_text().as_bytes(),
        Page::Version => version_text().as_bytes(),
        Page::About(topic) => topic_text(topic).as_bytes(),
    }
}

/// The text of a page, which is the same in each layout.
#[tactic(auto, unfolding(crate::specs::AnswerText::answer_line))]
pub fn page_text(page: Page) -> &'static [u8]
    ensures { (layout : Layout) (names : NameLists) → result.now ≡ answer_line layout names (Said.Page page) }
{
    page_lines(page)
}
