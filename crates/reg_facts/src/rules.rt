// Rules: looked up one by one and by what they watch, and as a command names them.
ghost use Rattle.std.specs.Prelude.{◌≡◌, ◌<◌, ◌≤◌, ◌+◌, ℕ, List, Some, length, true};
ghost use Rattle.std.specs.Option.{option_copied};
ghost use Rattle.reg_base.specs.NameParts.{extension_of};
ghost use Rattle.reg_base.specs.declared.entity.Entity.{Entity};
ghost use Rattle.reg_base.specs.declared.privilege.Privilege.TheVariants.{StemAdmin};
ghost use Rattle.reg_terms.specs.Limits.{max_folders, max_groups, max_grants};
ghost use Rattle.reg_terms.specs.declared.command.Command.TheVariants.{FolderAdd, GroupAdd};
ghost use Rattle.reg_terms.specs.declared.kinds.Object.TheVariants as object;
ghost use Rattle.reg_facts.specs.Edits.{the_id};
ghost use Rattle.reg_facts.specs.Events.{events_of, new_groups_grants};
ghost use Rattle.reg_facts.specs.Grants.{holder_of, makers_grant};
ghost use Rattle.reg_facts.specs.Naming.{home_id};
ghost use Rattle.reg_facts.specs.Ruled.{AreRuled};
ghost use Rattle.reg_facts.specs.Rules.{rule_by, rules_at, has_rule, is_ruled, is_ruled_folder};
ghost use Rattle.reg_facts.specs.Suiting.{AllSuit, CanStand};

use crate::{Facts, RuleForm, RuleKey, RuleRow};
use reg_base::{FolderId, GroupId};
use reg_table::GroupRows;

impl Facts {
    /// The rule of this id. None exactly where there is none. It takes no memory, and is one look
    /// where no rule before it was deleted, else a binary search.
    pub fn rule(&self, id: u64) -> Option<&RuleRow>
        ensures { option_copied result ≡ rule_by id self.now.rules }
    {
        self.law_rules();
        if id > self.made().rules as u64 {
            return None;
        }
        self.tables.rule_rows.get(id as u32)
    }

    /// The rules that watch one thing, by id: each is found in turn. It takes no memory.
    pub fn rules_at(&self, key: RuleKey) -> GroupRows<'_, RuleRow>
        ensures { result ≡ rules_at key self.now.rules }
    {
        self.tables.rule_rows.at(key)
    }

    /// Whether a rule says the same. It takes no memory, and costs a logarithm.
    pub fn has_rule(&self, form: &RuleForm) -> bool
        ensures { result ≡ has_rule form.now self.now.rules }
    {
        self.tables.rule_rows.has(form)
    }

    /// Whether a rule names a group. It takes no memory.
    pub fn is_ruled(&self, group: GroupId) -> bool
        ensures { result ≡ is_ruled group self.now.rules }
    {
        self.tables.rule_rows.is_ruled(group)
    }

    /// Whether a rule names a folder. It takes no memory.
    pub fn is_ruled_folder(&self, folder: FolderId) -> bool
        ensures { result ≡ is_ruled_folder folder self.now.rules }
    {
        self.tables.rule_rows.is_ruled_folder(folder)
    }

    /// A law, which does nothing: the ids of rules ascend, no two say the same, and what they speak
    /// of stands.
    pub fn law_rules(&self)
        ensures { AreRuled self.now }
    {
        let _ = &self.tables;
    }

    /// A law, which does nothing: where a new group may stand and the grants on it have room, what
    /// making it brings suits the facts.
    pub fn law_new_group(&self)
        ensures { (at : ℕ) (by : Entity) (group display : List ℕ)
            → CanStand (the_id (home_id group self.now)) (extension_of group) 0 self.now
            → self.now.made.groups < max_groups
            → length self.now.grants + length (new_groups_grants by group self.now) ≤ max_grants
            → AllSuit (events_of at by (GroupAdd group display) self.now) self.now }
    {
        self.law_grants();
        self.law_held();
        self.law_rules();
    }
}
