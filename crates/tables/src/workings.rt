//! Figures, and how they are worked out through the library.

ghost use Rattle.std.specs.Prelude.{◌≡◌};
ghost use Rattle.console.specs.Words.{words, only};
ghost use Rattle.figures.specs.Positions.{positions_of};
ghost use Rattle.figures.specs.Used.{utilisation_if};
ghost use Rattle.sheets.specs.Tables.{table_of};
ghost use Rattle.tables.specs.Questions.{question_of, asked};
ghost use Rattle.tables.specs.Workings.{number_if, word_figure, figure_in, utilisation_figure, last_mark, figure_for, figure_if_asked};

use crate::examples::Example;
use crate::greatest::greatest_of;
use crate::numbers::signed;
use crate::questions::{Question, question_in};
use console::only_word;
use figures::markets::Market;
use figures::needs::deficit;
use figures::position::Position;
use figures::utilisations::utilisation;
use scenario::ScenarioModel;
use sheets::kinds::Sheet;
use std::fmt;

/// A figure of a table.
// Kept as an enum of the shape of `Option`: it prints itself, and the word for no number is its own.
#[derive(Clone, Copy, PartialEq)]
pub enum Figure {
    /// An amount in centavos, or a whole percentage.
    Number(i64),
    /// None, since nothing stands behind the risk.
    NoBacking,
}

impl fmt::Display for Figure {
    fn fmt<W: fmt::Write>(&self, f: &mut fmt::Formatter<W>) -> fmt::Result {
        match self {
            Figure::Number(number) => write!(f, "{number}"),
            Figure::NoBacking => write!(f, "none"),
        }
    }
}

// A number as a figure.
fn number(worked: Option<i64>) -> Option<Figure>
    ensures { result ≡ number_if worked }
{
    worked.map(|number| Figure::Number(number))
}

// How much of its backing a risk takes up.
fn percentage(risk: i64, backing: i64) -> Option<Figure>
    ensures { result ≡ utilisation_figure (utilisation_if backing risk) }
{
    match utilisation(backing, risk).ok()? {
        Some(percent) => number(i64::try_from(percent).ok()),
        None => Some(Figure::NoBacking),
    }
}

// The mark of the last position. `None` where there is none, or its contract has no market price.
fn last_mark(market: &Market<Sheet>, positions: &[Position]) -> Option<i64>
    ensures { result ≡ last_mark (table_of market.now.model.now) market.now.prices.now (positions_of positions.now) }
{
    market.mark(positions.last()?)
}

// Kept beside `FromStr`: nobody asks why a word writes no figure, and an error type would have to say it.
// The figure that a word writes.
fn figure_of_word(word: &str) -> Option<Figure>
    ensures { result ≡ word_figure word.now }
{
    match word {
        "none" => Some(Figure::NoBacking),
        _ => number(signed(word)),
    }
}

/// The figure that stands in a text: a number, or the word `none`.
pub(crate) fn figure_in(text: &str) -> Option<Figure>
    ensures { result ≡ figure_in (only (words text.now)) }
{
    figure_of_word(only_word(text)?)
}

impl Example {
    // The figure that a question asks for.
    fn figure_for(&self, question: Question<'_>) -> Option<Figure>
        ensures { result ≡ figure_for (table_of self.now.sheet) self.now.prices (positions_of self.now.positions.items) (question_of question.entry) }
    {
        let market = Market {
            model: &self.sheet,
            prices: &self.prices,
        };
        let positions = self.positions.as_slice();
        match question {
            Question::Shock(contract, scenario) => number(Some(
                self.sheet.shock(contract, scenario),
            )),
            Question::Mark => number(last_mark(&market, positions)),
            Question::Loss(k, scenario) => number(market.loss_in(positions, k, scenario)),
            Question::Risk => number(market.open_risk(positions)),
            Question::Need => number(market.need(positions, 0)),
            Question::Deficit(needed, collateral) => number(deficit(needed, collateral)),
            Question::Greatest(count, deficits) => number(greatest_of(deficits, count)),
            Question::Utilisation(risk, backing) => percentage(risk, backing),
        }
    }

    /// The figure that a word asks for with numbers. `None` where they ask for none, or it cannot be worked out.
    pub(crate) fn figure(&self, word: &str, numbers: &[i64]) -> Option<Figure>
        ensures { result ≡ figure_if_asked (table_of self.now.sheet) self.now.prices (positions_of self.now.positions.items) (asked word.now numbers.now) }
    {
        self.figure_for(question_in(word, numbers)?)
    }
}
