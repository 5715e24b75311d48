// What refuses a command about rules.
ghost use Rattle.std.specs.Prelude.{◌≡◌, ◌∷◌, [], IfOk, codes};
ghost use Rattle.reg_terms.specs.Limits.{max_rules};
ghost use Rattle.reg_terms.specs.declared.command.Command.TheVariants.{RuleRemoveLost, RuleEndLost};
ghost use Rattle.reg_terms.specs.declared.command.Command.TheVariants.{RuleVeto};
ghost use Rattle.reg_terms.specs.declared.kinds.RuleForm.TheVariants.{EndLost};
ghost use Rattle.reg_terms.specs.declared.refusal.Refusal.TheVariants.{Already};
ghost use Rattle.reg_facts.specs.Rules.{form_of, has_rule, on_create_for};
ghost use Rattle.reg_machine.specs.Checks.{rule_of_groups_checks, rule_on_create_checks};
ghost use Rattle.reg_machine.specs.Checks.{rule_delete_checks, rule_stands, limited, history_full};
ghost use Rattle.reg_machine.specs.History.{now_facts};
ghost use Rattle.reg_machine.specs.Refusals.{first_of};

use crate::Machine;
use crate::decide_grants::is_system;
use crate::decide_members::named_text;
use crate::refusing::{full, not_found, wrong_kind};
use reg_base::{Entity, FolderId, GroupId, Name, Privilege, Text};
use reg_effect::Kept;
use reg_facts::{Holder, InheritKind, Refusal, RuleForm, Scope};
use reg_terms::{MAX_RULES, privilege_kind};
use std::alloc::{AllocError, Global};

/// The rule that grants a privilege on new groups, where its holder stands.
fn on_create_for(
    folder: FolderId,
    scope: Scope,
    privilege: Privilege,
    holder: Option<Holder>,
) -> Option<RuleForm>
    ensures { result ≡ on_create_for folder scope privilege holder }
{
    let holder = holder?;
    Some(RuleForm::OnCreate {
        folder,
        scope,
        privilege,
        holder,
    })
}

impl<K: Kept> Machine<K> {
    /// Whether a rule stands that says the same as the one that a command would make.
    fn rule_stands(&self, form: &Option<RuleForm>) -> bool
        ensures { result ≡ rule_stands form.now (now_facts self.now) }
    {
        match form {
            Some(form) => self.facts().has_rule(form),
            None => false,
        }
    }

    /// Whether a rule stands that ends memberships so many days later. None has more days than it
    /// may.
    fn has_end_lost(&self, check: GroupId, owner: GroupId, days: u64) -> bool
        ensures { result ≡ has_rule (EndLost check owner days) (now_facts self.now).rules }
    {
        match u32::try_from(days) {
            Ok(days) => self
                .facts()
                .has_rule(&RuleForm::EndLost { check, owner, days }),
            Err(_) => {
                self.facts().law_rules();
                false
            }
        }
    }

    /// Full, where there is no room for a rule more, or for a command more.
    fn decide_rule_room(&self, alloc: Global) -> Result<Option<Refusal>, AllocError>
        ensures { IfOk result (λ found. found
            ≡ first_of (limited max_rules (now_facts self.now).made.rules (codes "rule")
            ∷ history_full self.now.history ∷ [])) }
    {
        if self.facts().made().rules >= MAX_RULES {
            return full(alloc, "rule", u64::from(MAX_RULES));
        }
        self.decide_room(alloc)
    }

    /// What refuses to make a rule, where all that it names stands.
    fn decide_rule(
        &self,
        alloc: Global,
        form: &Option<RuleForm>,
    ) -> Result<Option<Refusal>, AllocError>
        ensures { IfOk result (λ found. found
            ≡ first_of ((rule_stands form.now (now_facts self.now), Already)
            ∷ limited max_rules (now_facts self.now).made.rules (codes "rule")
            ∷ history_full self.now.history ∷ [])) }
    {
        if self.rule_stands(form) {
            return Ok(Some(Refusal::Already));
        }
        self.decide_rule_room(alloc)
    }

    pub(crate) fn decide_rule_remove_lost(
        &self,
        alloc: Global,
        check: &Name,
        owner: &Name,
    ) -> Result<Option<Refusal>, AllocError>
        ensures { IfOk result (λ found. found
            ≡ first_of (rule_of_groups_checks self.now.history
            (now_facts self.now) check.now owner.now
            (form_of (RuleRemoveLost check.now owner.now) (now_facts self.now)))) }
    {
        let Some(check_id) = self.facts().group_id(check.as_str()) else {
            return not_found(alloc, check.as_str());
        };
        let Some(owner_id) = self.facts().group_id(owner.as_str()) else {
            return not_found(alloc, owner.as_str());
        };
        let form = RuleForm::RemoveLost {
            check: check_id,
            owner: owner_id,
        };
        self.decide_rule(alloc, &Some(form))
    }

    pub(crate) fn decide_rule_end_lost(
        &self,
        alloc: Global,
        check: &Name,
        owner: &Name,
        days: u64,
    ) -> Result<Option<Refusal>, AllocError>
        ensures { IfOk result (λ found. found
            ≡ first_of (rule_of_groups_checks self.now.history
            (now_facts self.now) check.now owner.now
            (form_of (RuleEndLost check.now owner.now days) (now_facts self.now)))) }
    {
        let Some(check_id) = self.facts().group_id(check.as_str()) else {
            return not_found(alloc, check.as_str());
        };
        let Some(owner_id) = self.facts().group_id(owner.as_str()) else {
            return not_found(alloc, owner.as_str());
        };
        if self.has_end_lost(check_id, owner_id, days) {
            return Ok(Some(Refusal::Already));
        }
        self.decide_rule_room(alloc)
    }

    pub(crate) fn decide_rule_veto(
        &self,
        alloc: Global,
        owner: &Name,
        condition: &Name,
    ) -> Result<Option<Refusal>, AllocError>
        ensures { IfOk result (λ found. found
            ≡ first_of (rule_of_groups_checks self.now.history
            (now_facts self.now) owner.now condition.now
            (form_of (RuleVeto owner.now condition.now) (now_facts self.now)))) }
    {
        let Some(owner_id) = self.facts().group_id(owner.as_str()) else {
            return not_found(alloc, owner.as_str());
        };
        let Some(condition_id) = self.facts().group_id(condition.as_str()) else {
            return not_found(alloc, condition.as_str());
        };
        let form = RuleForm::Veto {
            owner: owner_id,
            condition: condition_id,
        };
        self.decide_rule(alloc, &Some(form))
    }

    pub(crate) fn decide_rule_on_create(
        &self,
        alloc: Global,
        folder: &Text,
        scope: Scope,
        privilege: Privilege,
        holder: &Entity,
    ) -> Result<Option<Refusal>, AllocError>
        ensures { IfOk result (λ found. found
            ≡ first_of (rule_on_create_checks self.now.history
            (now_facts self.now) folder.now scope privilege holder.now)) }
    {
        let Some(id) = self.facts().folder_id(folder.as_str()) else {
            return not_found(alloc, folder.as_str());
        };
        if self.is_unknown(holder) {
            return not_found(alloc, named_text(holder));
        }
        if !privilege_kind(privilege).is(&InheritKind::Group) {
            return wrong_kind(alloc, "privilege");
        }
        if is_system(holder) {
            return wrong_kind(alloc, "holder");
        }
        let form = on_create_for(id, scope, privilege, self.facts().holder_of(holder));
        self.decide_rule(alloc, &form)
    }

    pub(crate) fn decide_rule_delete(
        &self,
        alloc: Global,
        id: u64,
    ) -> Result<Option<Refusal>, AllocError>
        ensures { IfOk result (λ found. found
            ≡ first_of (rule_delete_checks self.now.history (now_facts self.now) id)) }
    {
        if self.facts().rule(id).is_none() {
            return Ok(Some(Refusal::NoSuch));
        }
        self.decide_room(alloc)
    }
}
