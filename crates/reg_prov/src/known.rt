// What a machine knows of the groups that were granted to a provisioner.
ghost use Rattle.std.specs.Prelude.{IfOk};
ghost use Rattle.reg_prov.specs.Pasts.{Tell, TellsOf};
ghost use Rattle.reg_prov.specs.Wanted.{wants};

use crate::past::GroupPast;
use reg_base::{GroupId, Privilege, SubjectId};
use reg_effect::Kept;
use reg_machine::Machine;
use reg_terms::{Holder, Object};
use std::alloc::{AllocError, Global};

/// What is known of a group: None where the provisioner itself never held READ on it. Costs, where
/// it did, what was ever noted of the group.
fn past_of<K: Kept>(
    machine: &Machine<K>,
    provisioner: SubjectId,
    group: GroupId,
) -> Result<Option<GroupPast>, AllocError>
    ensures { IfOk result (λ past. TellsOf (wants machine.now.history provisioner)
        machine.now.clock group past) }
{
    machine.law_past();
    let object = Object::Group(group);
    let grants = machine.granted_spans(object, Privilege::Read, Holder::Person(provisioner))?;
    if grants.is_empty() {
        return Ok(None);
    }
    let members = machine.history_of(group)?;
    Ok(Some(GroupPast {
        group,
        grants,
        members,
    }))
}

/// What is known of all groups on which the provisioner itself ever held READ, by id. Costs the
/// groups that were ever made, and what was ever noted of those.
pub(crate) fn pasts_of<K: Kept>(
    alloc: Global,
    machine: &Machine<K>,
    provisioner: SubjectId,
) -> Result<Vec<GroupPast>, AllocError>
    ensures { IfOk result (λ pasts. Tell (wants machine.now.history provisioner)
        machine.now.clock pasts.items) }
{
    machine.law_past();
    let last = machine.facts().made().groups;
    let mut pasts = Vec::new(alloc);
    for number in 0..=last {
        if let Some(past) = past_of(machine, provisioner, GroupId::new(number))? {
            pasts.push(past)?;
        }
    }
    Ok(pasts)
}
