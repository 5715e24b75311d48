// What rules are looked up by, and when two of them say the same.
ghost use Rattle.std.specs.Prelude.{◌≡◌};
ghost use Rattle.reg_terms.specs.Rules.{key_of, other_of};

use crate::{Holder, RuleForm};
use reg_base::{FolderId, GroupId};

/// What a rule is looked up by: the group whose lost members it watches, the group to which it lets
/// only some be added, or the folder in which it watches for new groups.
#[derive(Clone, Copy, PartialEq, Eq, PartialOrd, Ord)]
pub enum RuleKey {
    Check(GroupId),
    Owner(GroupId),
    Folder(FolderId),
}

impl RuleForm {
    /// What the rule is looked up by.
    pub fn key(&self) -> RuleKey
        ensures { result ≡ key_of self.now }
    {
        match self {
            RuleForm::RemoveLost { check, .. } | RuleForm::EndLost { check, .. } => {
                RuleKey::Check(*check)
            }
            RuleForm::Veto { owner, .. } => RuleKey::Owner(*owner),
            RuleForm::OnCreate { folder, .. } => RuleKey::Folder(*folder),
        }
    }

    /// Of whom the rule speaks beside that: the group from which it takes, the group in which one
    /// has to be, or the holder of its grant.
    pub fn other(&self) -> Holder
        ensures { result ≡ other_of self.now }
    {
        match self {
            RuleForm::RemoveLost { owner, .. } | RuleForm::EndLost { owner, .. } => {
                Holder::Group(*owner)
            }
            RuleForm::Veto { condition, .. } => Holder::Group(*condition),
            RuleForm::OnCreate { holder, .. } => *holder,
        }
    }
}
