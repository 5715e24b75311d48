// What a machine's registry allows at its clock.
ghost use Rattle.std.specs.Prelude.{◌≡◌, true, IfOk};
ghost use Rattle.reg_current.specs.Live.{live};
ghost use Rattle.reg_machine.specs.History.{now_facts};
ghost use Rattle.reg_access.specs.Grounds.{AreThose, first_of, grounds, is_allowed, is_resource};
ghost use Rattle.reg_access.specs.Sayings.{is_action};

use crate::{Ground, deciding};
use reg_base::{AttrId, SubjectId};
use reg_effect::Kept;
use reg_machine::Machine;
use std::alloc::{AllocError, Global};

/// What counts for a person and an action on a resource, in the order in which it counts. The
/// action must be one (`is_action`), and the attribute a resource (`is_resource`). The only error
/// is out of memory. It goes once through all assignments.
pub fn grounds<K: Kept>(
    alloc: Global,
    machine: &Machine<K>,
    subject: SubjectId,
    resource: AttrId,
    action: &[u8],
) -> Result<Vec<Ground>, AllocError>
    requires resource { is_resource resource (now_facts machine.now) ≡ true }
    requires action { is_action action.now ≡ true }
    ensures { IfOk result (λ found. found.items
        ≡ grounds (live machine.now.clock (now_facts machine.now)) (now_facts machine.now) subject
        resource action.now) }
{
    deciding::grounds(
        alloc,
        machine.facts(),
        machine.kept(),
        subject,
        resource,
        action,
    )
}

/// What decides whether a person is allowed an action on a resource: the first of the grounds.
/// Where there is none the person isn't allowed it. For the rest as `grounds`.
pub fn permit<K: Kept>(
    alloc: Global,
    machine: &Machine<K>,
    subject: SubjectId,
    resource: AttrId,
    action: &[u8],
) -> Result<Option<Ground>, AllocError>
    requires resource { is_resource resource (now_facts machine.now) ≡ true }
    requires action { is_action action.now ≡ true }
    ensures { IfOk result (λ found. found
        ≡ first_of (grounds (live machine.now.clock (now_facts machine.now))
        (now_facts machine.now) subject resource action.now)) }
{
    deciding::permit(
        alloc,
        machine.facts(),
        machine.kept(),
        subject,
        resource,
        action,
    )
}

/// The persons who are allowed an action on a resource, by id: exactly those for whom the first of
/// the grounds allows it. The action must be one (`is_action`), and the attribute a resource
/// (`is_resource`). The only error is out of memory. It goes once through all assignments, and
/// costs the members of each group that is spoken of, once, and not all persons.
pub fn allowed<K: Kept>(
    alloc: Global,
    machine: &Machine<K>,
    resource: AttrId,
    action: &[u8],
) -> Result<Vec<SubjectId>, AllocError>
    requires resource { is_resource resource (now_facts machine.now) ≡ true }
    requires action { is_action action.now ≡ true }
    ensures { IfOk result (λ found. AreThose
        (is_allowed (live machine.now.clock (now_facts machine.now)) (now_facts machine.now)
        resource action.now) found.items) }
{
    deciding::allowed(alloc, machine.facts(), machine.kept(), resource, action)
}
