//! Desks.
ghost use Rattle.std.specs.Prelude.{List, [], ◌∷◌, ◌++◌};
ghost use Rattle.desk.specs.Told.{Step, asked, told, told_of, stated};
ghost use Rattle.statements.specs.Stated.{statement_in};

use crate::replies::Reply;
use orders::Order;
use scenario::ScenarioModel;
use statements::statement::Statement;

/// Where orders come from and replies go, one at a time.
pub trait Desk {
    /// What was asked and told between two moments of a desk: the second is what the first has become by it.
    ghost past: { Self → Self → List Step → Type 0 };

    /// The next order, `None` where there is none any more. Meanwhile the model of the day is lent.
    fn next<M: ScenarioModel>(&mut self, model: &M) -> Option<Order>
        ensures { (d : Self) (h : List Step) → past d self.old h → past d self.new (h ++ asked (M.ScenarioModel.table model.now) result ∷ []) };

    /// Takes the reply to the last order, where it asked for no statement.
    fn tell(&mut self, reply: Reply)
        ensures { (d : Self) (h : List Step) → past d self.old h → past d self.new (h ++ told (told_of reply) ∷ []) };

    /// Takes the statement of a trader, for which the last order asked.
    fn state(&mut self, trader: u64, statement: &Statement)
        ensures { (d : Self) (h : List Step) → past d self.old h → past d self.new (h ++ told (stated trader (statement_in statement.now)) ∷ []) };
}
