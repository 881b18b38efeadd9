//! TEXT: it draws nothing, and sets the modal repetition.
ghost use Rattle.std.specs.Prelude.{◌≡◌, List, OnOk, IfErr};
ghost use Rattle.lvl_profile.specs.declared.ignore.Ignore.{Ignore as Ignored};
ghost use Rattle.oasis_records.specs.declared.record.Record.{Record as ARecord};
ghost use Rattle.oasis_figures.specs.Keeping.{StandsFor};
ghost use Rattle.oasis_figures.specs.Rules.{Breaches, BreachesNone};
ghost use Rattle.oasis_figures.specs.inside.Taking.{a_text, Takes};

use crate::drawn::DrawnRecord;
use crate::modal::Modal;
use crate::repetition::{after, is_known};
use crate::rule::FigureRule;
use crate::variable::Variable;
use lvl_refusal::Cause;
use oasis_values::Repetition;

impl Modal {
    /// Tests a text: it may have the modal repetition only if that is defined.
    fn test_text(&self, repetition: &Option<Repetition>) -> Result<(), FigureRule>
        ensures ok { OnOk result ((ignore : Ignored) (earlier : List ARecord) → StandsFor self.now earlier
            → BreachesNone ignore earlier (a_text repetition.now)) }
        ensures err { IfErr result (λ rule. (ignore : Ignored) (earlier : List ARecord) → StandsFor self.now earlier
            → Breaches ignore earlier (a_text repetition.now) rule) }
    {
        if !is_known(repetition, &self.repetition) {
            return Err(FigureRule::Undefined(Variable::Repetition));
        }
        Ok(())
    }

    /// Takes a TEXT. Its own modal variables aren't kept, since nothing that is drawn depends on them.
    pub(crate) fn take_text(
        &mut self,
        repetition: Option<Repetition>,
    ) -> Result<Option<DrawnRecord>, Cause<FigureRule>>
        ensures { (ignore : Ignored) → Takes ignore self.old (a_text repetition) result self.new }
    {
        self.test_text(&repetition)?;
        self.is_repeated = repetition.is_some();
        self.repetition = after(repetition, self.repetition.take());
        Ok(None)
    }
}
