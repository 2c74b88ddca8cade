//! What a line of the console asks.
#![tactic(auto)]

ghost use Rattle.std.specs.Prelude.{◌≡◌, ◌∷◌, ◌==◌, slice_index};
ghost use Rattle.std.specs.Option.{unwrap_or};
ghost use Rattle.console.specs.Words.{words};
ghost use Rattle.console.specs.Requests.{asked, asked_by, meant};

mod numbers;
mod words;

pub use numbers::number;
pub use words::{is_blank, next_word, only_word};

/// What a line asks.
#[derive(Clone, Copy, PartialEq, Eq, Debug)]
pub enum Request<'a> {
    /// Nothing: the line is blank or a comment.
    Nothing,
    /// To read the sheet at a path.
    Sheet(&'a str),
    /// What a contract gains and loses in the scenarios.
    Contract(u64),
    /// No line that the console knows.
    Unreadable,
}

// Kept a word and what follows it: `next_word` gives the two, and a type of the two would be made for this one match.
// What a line asks that begins with a word, by the words that follow it; `None` if the console does not know the line.
fn request_for<'a>(verb: &str, rest: &'a str) -> Option<Request<'a>>
    ensures { meant (unwrap_or result Request.Unreadable) ≡ asked_by (verb.now ∷ words rest.now) }
{
    match verb {
        "sheet" => Some(Request::Sheet(only_word(rest)?)),
        "contract" => Some(Request::Contract(number(only_word(rest)?)?)),
        _ => None,
    }
}

// Whether a line is a comment.
fn is_comment(line: &str) -> bool
    ensures { result ≡ (slice_index line.now 0 == 35) }
{
    line.starts_with('#')
}

// What a line asks by its words.
fn request_by_words(line: &str) -> Request<'_>
    ensures { meant result ≡ asked_by (words line.now) }
{
    let Some((verb, rest)) = next_word(line) else {
        return Request::Nothing;
    };
    request_for(verb, rest).unwrap_or(Request::Unreadable)
}

/// What a line asks. Spaces separate its words; a line that is blank, or that begins with `#`, asks nothing.
pub fn request_of(line: &str) -> Request<'_>
    ensures { meant result ≡ asked line.now }
{
    if is_comment(line) {
        Request::Nothing
    } else {
        request_by_words(line)
    }
}
