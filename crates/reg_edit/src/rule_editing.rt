// The events of the commands on rules.
ghost use Rattle.std.specs.Prelude.{◌≡◌, ◌+◌, ◌<◌, ◌∷◌, [], IfOk, IsSome};
ghost use Rattle.reg_terms.specs.declared.event.Event.TheVariants.{RuleMade, RuleGone};
ghost use Rattle.reg_terms.specs.Limits.{max_rules};
ghost use Rattle.reg_facts.specs.Events.{on_rule};
ghost use Rattle.reg_facts.specs.Grants.{holder_of};
ghost use Rattle.reg_facts.specs.Rules.{rule_by, on_create_for, form_of};
ghost use Rattle.reg_facts.specs.Ruling.{HasDays};
ghost use Rattle.reg_facts.specs.Suiting.{AllSuit};

use crate::editing::{one, the_folder, the_group};
use reg_base::{Entity, FolderId, Privilege, RuleId};
use reg_facts::{Command, Event, Facts, RuleForm, RuleRow, Scope};
use std::alloc::{AllocError, Global};

/// The rule that a command makes, if it makes one and its holder stands; a name that isn't
/// there counts as the number 0. It takes no memory.
pub(crate) fn rule_form(facts: &Facts, command: &Command) -> Option<RuleForm>
    requires { HasDays command.now }
    ensures { result ≡ form_of command.now facts.now }
{
    match command {
        Command::RuleRemoveLost { check, owner } => Some(RuleForm::RemoveLost {
            check: the_group(facts, check),
            owner: the_group(facts, owner),
        }),
        Command::RuleEndLost { check, owner, days } => Some(RuleForm::EndLost {
            check: the_group(facts, check),
            owner: the_group(facts, owner),
            days: *days as u32,
        }),
        Command::RuleVeto { owner, condition } => Some(RuleForm::Veto {
            owner: the_group(facts, owner),
            condition: the_group(facts, condition),
        }),
        Command::RuleOnCreate {
            folder,
            scope,
            privilege,
            holder,
        } => on_create(facts, the_folder(facts, folder), *scope, *privilege, holder),
        _ => None,
    }
}

/// The rule that grants a privilege on new groups, if its holder stands.
fn on_create(
    facts: &Facts,
    folder: FolderId,
    scope: Scope,
    privilege: Privilege,
    holder: &Entity,
) -> Option<RuleForm>
    ensures { result ≡ on_create_for folder scope privilege (holder_of holder.now facts.now) }
{
    let holder = facts.holder_of(holder)?;
    Some(RuleForm::OnCreate {
        folder,
        scope,
        privilege,
        holder,
    })
}

/// A rule of the next id is made, if the command makes one.
pub(crate) fn rule_add(
    facts: &Facts,
    alloc: Global,
    command: &Command,
) -> Result<Vec<Event>, AllocError>
    requires { AllSuit (on_rule (facts.now.made.rules
        + 1) (form_of command.now facts.now)) facts.now }
    ensures { IfOk result (λ events. events.items
        ≡ on_rule (facts.now.made.rules + 1) (form_of command.now facts.now)) }
{
    match rule_form(facts, command) {
        Some(form) => rule_of(facts, alloc, form),
        None => Ok(Vec::new(alloc)),
    }
}

/// A rule of the next id is made.
fn rule_of(facts: &Facts, alloc: Global, form: RuleForm) -> Result<Vec<Event>, AllocError>
    requires { facts.now.made.rules < max_rules }
    ensures { IfOk result (λ events. events.items
        ≡ RuleMade (record { id = facts.now.made.rules + 1; form = form }) ∷ []) }
{
    let id = RuleId::new(facts.made().rules + 1);
    let row = RuleRow { id, form };
    one(alloc, Event::RuleMade { row })
}

/// The rule of this id goes.
pub(crate) fn rule_delete(facts: &Facts, alloc: Global, id: u64) -> Result<Vec<Event>, AllocError>
    requires { IsSome (rule_by id facts.now.rules) }
    ensures { IfOk result (λ events. events.items ≡ RuleGone id ∷ []) }
{
    match facts.rule(id) {
        Some(row) => one(alloc, Event::RuleGone { rule: row.id }),
        None => unreachable!(),
    }
}
