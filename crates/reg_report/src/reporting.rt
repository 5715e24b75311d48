// What a report prints.
ghost use Rattle.std.specs.Prelude.{IfOk};
ghost use Rattle.reg_report.specs.Printed.{Tells};
ghost use Rattle.reg_report.specs.Reported.{Reported, bytes_told};

use crate::asked::Unreported;
use crate::attestation::{attestation_report, attested_report};
use crate::permission::{permit_report, permitted_report};
use crate::why::why_report;
use reg_access::reminders;
use reg_effect::Kept;
use reg_machine::Machine;
use reg_terms::Refusal;
use reg_words::Report;
use std::alloc::{AllocError, Global};

/// What a report prints.
#[tactic(auto, unfolding(crate::specs::Reported::Reported))]
fn reported<K: Kept>(
    alloc: Global,
    machine: &Machine<K>,
    asked: &Report,
) -> Result<Vec<u8>, Unreported>
    ensures { Tells result (Reported asked.now machine.now) }
{
    match asked {
        Report::Permit {
            subject,
            resource,
            action,
        } => permit_report(alloc, machine, subject, resource, action),
        Report::Permitted { resource, action } => {
            permitted_report(alloc, machine, resource, action)
        }
        Report::Attested { group, at } => attested_report(alloc, machine, group, at),
        Report::Attestation { group } => attestation_report(alloc, machine, group),
        Report::Reminders => Ok(reminders(alloc, machine)?),
        Report::Why { subject, group } => why_report(alloc, machine, subject, group),
    }
}

/// What a report prints after the history at the clock, each line with LF, or why it is refused. A
/// text that is no name or no moment is refused first, then what doesn't stand, then what is of
/// another kind, then a moment later than the clock. The only error is out of memory. Costs what
/// the calls of permissions, attestations and reasons cost that it makes, and one look by name a
/// word.
pub fn report<K: Kept>(
    alloc: Global,
    machine: &Machine<K>,
    asked: &Report,
) -> Result<Result<Vec<u8>, Refusal>, AllocError>
    ensures { IfOk result (λ told. Reported asked.now machine.now (bytes_told told)) }
{
    match reported(alloc, machine, asked) {
        Ok(bytes) => Ok(Ok(bytes)),
        Err(Unreported::Refused(refusal)) => Ok(Err(refusal)),
        Err(Unreported::Memory) => Err(AllocError),
    }
}
