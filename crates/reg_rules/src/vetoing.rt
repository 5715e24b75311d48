// Who may not be added to a group.
ghost use Rattle.std.specs.Prelude.{◌≡◌};
ghost use Rattle.reg_rules.specs.Veto.{first_veto, vetoes};

use reg_base::{GroupId, RuleId, SubjectId};
use reg_effect::Kept;
use reg_facts::{Facts, RuleForm};
use reg_terms::RuleKey;

/// Whether a rule of this form vetoes a person in a group.
fn vetoes<K: Kept>(kept: &K, form: &RuleForm, group: GroupId, subject: SubjectId) -> bool
    ensures { result ≡ vetoes (K.held kept.now) group subject form.now }
{
    match form {
        RuleForm::Veto { owner, condition } => {
            owner.number() == group.number() && !kept.is_member(*condition, subject)
        }
        RuleForm::RemoveLost { .. } | RuleForm::EndLost { .. } | RuleForm::OnCreate { .. } => false,
    }
}

/// The rule of the least id that forbids to add a person to a group, since the person isn't an
/// effective member of the rule's condition. None exactly where no rule does. It takes no memory,
/// and is a look into the memberships for each veto on the group; other rules aren't looked at.
pub fn veto<K: Kept>(facts: &Facts, kept: &K, group: GroupId, subject: SubjectId) -> Option<RuleId>
    ensures { result ≡ first_veto (K.held kept.now) group subject facts.now.rules }
{
    for rule in facts.rules_at(RuleKey::Owner(group)) {
        if vetoes(kept, &rule.form, group, subject) {
            return Some(rule.id);
        }
    }
    None
}
