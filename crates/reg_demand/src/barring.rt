// What comes before all else that may refuse a command.
ghost use Rattle.std.specs.Prelude.{◌≡◌, IfOk};
ghost use Rattle.reg_demand.specs.Refusing.{first_of, barred, refused};

use crate::attributes::{assignment, attr_add, attr_delete, attrdef_delete};
use crate::composites::{composite_clear, composite_set};
use crate::consumers::consumer_ack;
use crate::folders::{folder_delete, folder_move, folder_rename, new_object};
use crate::grants::{grant_add, grant_remove};
use crate::groups::{group_delete, group_move, group_rename};
use crate::inherits::{inherit_add, inherit_remove};
use crate::jobs::{job_list, job_simple, of_job};
use crate::memberships::{member_add, member_remove, member_window};
use crate::rules::{rule_of_groups, rule_on_create};
use crate::subjects::demand_root;
use reg_base::Entity;
use reg_effect::Kept;
use reg_facts::{Command, Facts, Refusal};
use reg_priv::{Who, who_of};
use std::alloc::{AllocError, Global};

/// What refuses a command of a caller that stands before all else: what isn't found, or isn't seen,
/// by the fields in order, and then the first demand that isn't met. It changes nothing, and None
/// is no leave yet. The only error is out of memory.
pub fn barred<K: Kept>(
    alloc: Global,
    facts: &Facts,
    kept: &K,
    by: &Entity,
    who: &Who,
    command: &Command,
) -> Result<Option<Refusal>, AllocError>
    ensures { IfOk result (λ found. found
        ≡ first_of (barred (K.held kept.now) facts.now by.now who.now command.now)) }
{
    match command {
        Command::FolderAdd { folder, .. } => new_object(alloc, facts, kept, who, folder),
        Command::FolderRename { folder, extension } => {
            folder_rename(alloc, facts, kept, by, who, folder, extension)
        }
        Command::FolderMove { folder, to } => folder_move(alloc, facts, kept, by, who, folder, to),
        Command::FolderDelete { folder } => folder_delete(alloc, facts, kept, by, who, folder),
        Command::SubjectAdd { .. } => demand_root(alloc, facts, kept, who),
        Command::GroupAdd { group, .. } => new_object(alloc, facts, kept, who, group),
        Command::GroupRename { group, extension } => {
            group_rename(alloc, facts, kept, by, who, group, extension)
        }
        Command::GroupMove { group, to } => group_move(alloc, facts, kept, by, who, group, to),
        Command::GroupDelete { group } => group_delete(alloc, facts, kept, by, who, group),
        Command::MemberAdd {
            group,
            member,
            from,
            until,
        } => member_add(alloc, facts, kept, by, who, group, member, *from, *until),
        Command::MemberRemove { group, member } => {
            member_remove(alloc, facts, kept, by, who, group, member)
        }
        Command::MemberWindow {
            group,
            member,
            from,
            until,
        } => member_window(alloc, facts, kept, by, who, group, member, *from, *until),
        Command::CompositeSet {
            group,
            kind,
            left,
            right,
        } => composite_set(alloc, facts, kept, by, who, group, *kind, left, right),
        Command::CompositeClear { group } => composite_clear(alloc, facts, kept, by, who, group),
        Command::GrantAdd {
            object,
            privilege,
            holder,
            from,
            until,
        } => grant_add(
            alloc, facts, kept, by, who, object, *privilege, holder, *from, *until,
        ),
        Command::GrantRemove {
            object,
            privilege,
            holder,
        } => grant_remove(alloc, facts, kept, by, who, object, *privilege, holder),
        Command::InheritAdd {
            folder,
            kind,
            scope,
            privilege,
            holder,
        } => inherit_add(
            alloc, facts, kept, by, who, folder, *kind, *scope, *privilege, holder,
        ),
        Command::InheritRemove {
            folder,
            kind,
            scope,
            privilege,
            holder,
        } => inherit_remove(
            alloc, facts, kept, by, who, folder, *kind, *scope, *privilege, holder,
        ),
        Command::AttrdefAdd { definition, .. } => new_object(alloc, facts, kept, who, definition),
        Command::AttrdefDelete { definition } => {
            attrdef_delete(alloc, facts, kept, by, who, definition)
        }
        Command::AttrAdd {
            attribute,
            definition,
        } => attr_add(alloc, facts, kept, by, who, attribute, definition),
        Command::AttrDelete { attribute } => attr_delete(alloc, facts, kept, by, who, attribute),
        Command::AssignAdd { attribute, object } => {
            assignment(alloc, facts, kept, who, attribute, object)
        }
        Command::AssignRemove {
            attribute,
            object,
            ..
        } => assignment(alloc, facts, kept, who, attribute, object),
        Command::ValueAdd {
            attribute,
            object,
            ..
        } => assignment(alloc, facts, kept, who, attribute, object),
        Command::ValueRemove {
            attribute,
            object,
            ..
        } => assignment(alloc, facts, kept, who, attribute, object),
        Command::RuleRemoveLost { check, owner } => {
            rule_of_groups(alloc, facts, kept, who, check, owner)
        }
        Command::RuleEndLost { check, owner, .. } => {
            rule_of_groups(alloc, facts, kept, who, check, owner)
        }
        Command::RuleVeto { owner, condition } => {
            rule_of_groups(alloc, facts, kept, who, owner, condition)
        }
        Command::RuleOnCreate { folder, holder, .. } => {
            rule_on_create(alloc, facts, kept, who, folder, holder)
        }
        Command::RuleDelete { .. } => demand_root(alloc, facts, kept, who),
        Command::JobSimple { group, .. } => job_simple(alloc, facts, kept, who, group),
        Command::JobList { folder, .. } => job_list(alloc, facts, kept, who, folder),
        Command::JobDelete { job } => of_job(alloc, facts, kept, who, job),
        Command::Load { job, .. } => of_job(alloc, facts, kept, who, job),
        Command::ConsumerAdd { .. } => demand_root(alloc, facts, kept, who),
        Command::ConsumerAck { consumer, seq } => {
            consumer_ack(alloc, facts, kept, by, who, consumer, *seq)
        }
    }
}

/// What refuses a command before all else: NoCaller where who asks is no caller, and else what bars
/// the caller. It changes nothing, and None is no leave yet. The only error is out of memory.
pub fn refused<K: Kept>(
    alloc: Global,
    facts: &Facts,
    kept: &K,
    by: &Entity,
    command: &Command,
) -> Result<Option<Refusal>, AllocError>
    ensures { IfOk result (λ found. found
        ≡ refused (K.held kept.now) facts.now by.now command.now) }
{
    match who_of(facts, by) {
        Some(who) => barred(alloc, facts, kept, by, &who, command),
        None => Ok(Some(Refusal::NoCaller)),
    }
}
