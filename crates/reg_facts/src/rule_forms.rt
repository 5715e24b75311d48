// What rules say, by which they are found.
ghost use Rattle.std.specs.Prelude.{◌≡◌};
ghost use Rattle.reg_facts.specs.Ruling.{manner_of, says_of, by_form};

use crate::{Holder, RuleForm, RuleKey, RuleRow, Scope};
use reg_base::RuleId;
use reg_table::Row;
use reg_terms::privilege_code;

/// What a rule does, beside what it is looked up by and of whom it speaks: a number of days, or a
/// scope and a privilege's code.
#[derive(Clone, Copy, PartialEq, Eq, PartialOrd, Ord)]
pub enum Manner {
    RemoveLost,
    EndLost(u32),
    Veto,
    OnCreate(Scope, u8),
}

/// A rule, found by all that it says.
#[derive(Clone, Copy)]
pub struct ByForm {
    pub says: (Manner, RuleKey, Holder),
    pub id: RuleId,
}

impl Row for ByForm {
    type Group = (Manner, RuleKey, Holder);

    type Place = RuleId;

    ghost group_of = { λ rule. rule.says };

    ghost place_of = { λ rule. rule.id };

    fn group(&self) -> (Manner, RuleKey, Holder) {
        self.says
    }

    fn place(&self) -> RuleId {
        self.id
    }
}

/// What a rule does.
fn manner_of(form: &RuleForm) -> Manner
    ensures { result ≡ manner_of form.now }
{
    match form {
        RuleForm::RemoveLost { .. } => Manner::RemoveLost,
        RuleForm::EndLost { days, .. } => Manner::EndLost(*days),
        RuleForm::Veto { .. } => Manner::Veto,
        RuleForm::OnCreate {
            scope,
            privilege,
            ..
        } => Manner::OnCreate(*scope, privilege_code(*privilege)),
    }
}

/// All that a rule says.
pub fn says(form: &RuleForm) -> (Manner, RuleKey, Holder)
    ensures { result ≡ says_of form.now }
{
    (manner_of(form), form.key(), form.other())
}

/// The same rule, found by all that it says.
pub fn formed(row: &RuleRow) -> ByForm
    ensures { result ≡ by_form row.now }
{
    ByForm {
        says: says(&row.form),
        id: row.id,
    }
}
