//! How replies and statements are shown.
ghost use Rattle.std.specs.Prelude.{◌≡◌, map};
ghost use Rattle.replies.specs.Replies.{reply_text};
ghost use Rattle.replies.specs.Rows.{figures_of_client, row_text};
ghost use Rattle.limits.specs.Shown.{note_of, line_of, client_line, total_lines};

use desk::replies::{Misplaced, Reply};
use replies::statement::{ClientFigures, StatementLine};
use replies::{day as shown, notes};
use statements::clients;
use statements::statement::Statement;

// Why an order is no call.
fn note(why: Misplaced) -> notes::Misplaced
    ensures { result ≡ note_of why }
{
    match why {
        Misplaced::NotOpen => notes::Misplaced::NotOpen,
        Misplaced::PreparationOver => notes::Misplaced::PreparationOver,
        Misplaced::NoSlipHeld => notes::Misplaced::NoSlipHeld,
    }
}

/// The reply to an order, as it is shown.
pub(crate) fn reply_shown(reply: Reply) -> shown::Reply
    ensures { reply_text result ≡ line_of reply }
{
    match reply {
        Reply::Trader(number) => shown::Reply::Trader(number),
        Reply::Client(number) => shown::Reply::Client(number),
        Reply::Trade(number) => shown::Reply::Trade(number),
        Reply::Slip(stub) => shown::Reply::Slip(u64::from(stub.serial)),
        Reply::Accepted => shown::Reply::Accepted,
        Reply::Refused(refusal) => shown::Reply::Refused(refusal),
        Reply::Misplaced(why) => shown::Reply::Misplaced(note(why)),
    }
}

/// The figures of a client, as they are shown: the margins are those of the sheets that were read.
pub(crate) fn figures_shown(client: &clients::ClientFigures, sheets: usize) -> ClientFigures<'_>
    ensures { figures_of_client result ≡ client_line sheets client.now }
{
    let margins = client.margins.as_slice();
    ClientFigures {
        client: u64::from(client.number),
        need: client.need,
        collateral: client.collateral,
        deficit: client.deficit,
        margins: margins.get(..sheets).unwrap_or(margins),
    }
}

/// The lines behind those of the clients.
pub(crate) fn totals_shown(statement: &Statement) -> [StatementLine<'static>; 7]
    ensures { map row_text result ≡ total_lines statement.now }
{
    [
        StatementLine::Specified(statement.specified),
        StatementLine::Unspecified(statement.unspecified),
        StatementLine::Risk(statement.risk),
        StatementLine::Backing(statement.backing),
        StatementLine::Limit(statement.limit),
        StatementLine::Utilisation(statement.used),
        StatementLine::End,
    ]
}
