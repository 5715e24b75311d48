// The wheel group after a step.
ghost use Rattle.std.specs.Prelude.{◌≡◌, ℕ, nat_le, Decides, IfOk, Ok, Option, None, Some};
ghost use Rattle.std.specs.Prelude.{if◌then◌else◌};
ghost use Rattle.reg_pit.specs.Past.{wheel_at, NotedBy, KeepsMembers, KeepsGrants, KeepsAssigns};

use reg_base::{GroupId, Moment};
use reg_pit::Past;
use std::alloc::AllocError;

/// Whether two are one group, or both are none.
fn is_same(group: &Option<GroupId>, other: &Option<GroupId>) -> bool
    ensures { Decides result (group.now ≡ other.now) }
{
    match group {
        Some(id) => match other {
            Some(second) => id.number() == second.number(),
            None => false,
        },
        None => other.is_none(),
    }
}

/// Notes the wheel group where it differs from what was noted last; nothing was noted later. Where
/// it doesn't, the past stays as it is, and no memory is asked for. Out of memory the past is given
/// up.
#[tactic(auto, using(crate::proofs::Granting::wheel_stays))]
pub(crate) fn note_wheel(past: Past, wheel: Option<GroupId>, at: Moment) -> Result<Past, AllocError>
    requires { NotedBy at past }
    ensures noted { IfOk result (λ new. (t : ℕ)
        → wheel_at new t ≡ (if nat_le at t then wheel else wheel_at past t)) }
    ensures unchanged { wheel_at past at ≡ wheel → result ≡ Ok past }
    ensures members { IfOk result (λ new. KeepsMembers past new) }
    ensures grants { IfOk result (λ new. KeepsGrants past new) }
    ensures assigns { IfOk result (λ new. KeepsAssigns past new) }
    ensures last { IfOk result (λ new. NotedBy at new) }
{
    past.law_stays();
    let noted = past.wheel_at(at);
    if is_same(&noted, &wheel) {
        return Ok(past);
    }
    past.note_wheel(wheel, at)
}
