// What is printed of attestations.
ghost use Rattle.std.specs.Prelude.{IfOk};
ghost use Rattle.reg_report.specs.Attestations.{AttestationTold, AttestedTold, IsAttestationLine};
ghost use Rattle.reg_report.specs.Printed.{Tells};

use crate::asked::{Unreported, attestation_asked, attested_asked};
use crate::line::{attestation_line, attested_line};
use reg_access::{state_at, states};
use reg_base::{GroupId, Text};
use reg_effect::Kept;
use reg_machine::Machine;
use std::alloc::{AllocError, Global};

/// Prints the state of a group's attestation, now or at a moment. Costs what was ever assigned to
/// the group.
pub fn attested_report<K: Kept>(
    alloc: Global,
    machine: &Machine<K>,
    group: &Text,
    at: &Option<Text>,
) -> Result<Vec<u8>, Unreported>
    ensures { Tells result (AttestedTold machine.now group.now at.now) }
{
    let (id, t) = attested_asked(alloc, machine.facts(), machine.clock(), group, at)?;
    let state = state_at(alloc, machine, id, t)?;
    let line = attested_line(alloc, state)?;
    Ok(line)
}

/// The line of all states of a group's attestation up to now.
fn states_line<K: Kept>(
    alloc: Global,
    machine: &Machine<K>,
    group: GroupId,
) -> Result<Vec<u8>, AllocError>
    ensures { IfOk result (λ bytes. IsAttestationLine machine.now group bytes.items) }
{
    let states = states(alloc, machine, group)?;
    attestation_line(alloc, &states)
}

/// Prints the states of a group's attestation from the beginning on. Costs, for each change of the
/// group's assignments, what was ever assigned to it.
pub fn attestation_report<K: Kept>(
    alloc: Global,
    machine: &Machine<K>,
    group: &Text,
) -> Result<Vec<u8>, Unreported>
    ensures { Tells result (AttestationTold machine.now group.now) }
{
    let id = attestation_asked(alloc, machine.facts(), group)?;
    let line = states_line(alloc, machine, id)?;
    Ok(line)
}
