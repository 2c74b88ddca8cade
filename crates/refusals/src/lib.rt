//! Why a call is refused: one table of numbers for the whole product.

#![tactic(auto)]

ghost use Rattle.std.specs.Prelude.{◌≡◌, Some};
ghost use Rattle.refusals.specs.Numbers.{number_of, text_of};

use std::fmt;

/// A cause of refusal. Where several hold of a call, the one that stands first here counts.
#[derive(Clone, Copy, PartialEq, Eq, Debug)]
pub enum Refusal {
    /// The file is under 24 or over 65,536 bytes, or its length field is not its length.
    WrongLength = 1,
    /// The kind is not 1 to 3.
    WrongKind = 2,
    /// A count is outside its kind's range.
    WrongCount = 3,
    /// An area starts before byte 24, ends past the file or overlaps the other.
    WrongArea = 4,
    /// A contract number is above 255 or not rising.
    WrongNumber = 5,
    /// Another field is outside its range.
    WrongField = 6,
    /// Scenario 0 is not zero.
    MovedFirst = 7,
    /// The trader, client, trade, holder, or contract in the model, is unknown.
    Unknown = 10,
    /// The table is full.
    TableFull = 11,
    /// A quantity, price, amount, settlement amount, intraday limit or default count is outside its range.
    OutOfRange = 12,
    /// Trade or carry of a contract without a price.
    NoPrice = 13,
    /// Wrong state of the trade.
    WrongState = 16,
    /// Client of another trader.
    OtherTrader = 17,
    /// Too much collateral.
    TooMuchCollateral = 18,
    /// The withdrawal or cancellation is not covered.
    NotCovered = 19,
    /// After the settlement window.
    AfterWindow = 20,
    /// No such slip.
    NoSuchSlip = 21,
    /// Beyond the word.
    BeyondWord = 22,
}

impl Refusal {
    /// The number of the refusal, by which people and programs know it.
    pub fn number(self) -> u8
        ensures { result ≡ number_of self }
    {
        self as u8
    }

    /// One line for people.
    pub fn text(self) -> &'static str
        ensures { result.now ≡ text_of self }
    {
        match self {
            Refusal::WrongLength =>
                "the file is shorter than 24 bytes, longer than 65536, or not as long as it says",
            Refusal::WrongKind => "the kind of sheet is not 1, 2 or 3",
            Refusal::WrongCount =>
                "a count of contracts, scenarios or factors is outside its range",
            Refusal::WrongArea =>
                "an area starts before byte 24, ends past the file or overlaps the other",
            Refusal::WrongNumber => "a contract number is above 255 or not above the one before",
            Refusal::WrongField => "a field is outside its range",
            Refusal::MovedFirst => "a shock of scenario 0 is not zero",
            Refusal::Unknown => "unknown trader, client, trade, holder or contract",
            Refusal::TableFull => "the table is full",
            Refusal::OutOfRange => "a quantity, price, amount, limit or count is outside its range",
            Refusal::NoPrice => "the contract has no price",
            Refusal::WrongState => "the trade is in the wrong state",
            Refusal::OtherTrader => "the client belongs to another trader",
            Refusal::TooMuchCollateral => "the holder would have too much collateral",
            Refusal::NotCovered => "the withdrawal or cancellation is not covered",
            Refusal::AfterWindow => "the settlement window has passed",
            Refusal::NoSuchSlip => "no such slip is standing",
            Refusal::BeyondWord => "the values would go beyond the word",
        }
    }
}

impl fmt::Display for Refusal {
    ghost output = { λ x. Some (text_of x) };

    fn fmt<W: fmt::Write>(&self, f: &mut fmt::Formatter<W>) -> fmt::Result {
        f.write_str(self.text())
    }
}
