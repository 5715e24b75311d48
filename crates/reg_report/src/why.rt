// What is printed of why a person is, or isn't, an effective member of a group.
ghost use Rattle.std.specs.Prelude.{IfOk};
ghost use Rattle.reg_report.specs.Printed.{Tells};
ghost use Rattle.reg_report.specs.Whys.{IsWhyLine, WhyTold};

use crate::asked::{Unreported, why_asked};
use crate::why_line::why_line;
use reg_base::{GroupId, SubjectId, Text};
use reg_effect::Kept;
use reg_machine::Machine;
use reg_reasons::explain;
use std::alloc::{AllocError, Global};

/// How many ways are listed for a group at most.
const MOST_WAYS: usize = 100;

/// The line of whether a person is a member of a group now, and why.
fn reasons_line<K: Kept>(
    alloc: Global,
    machine: &Machine<K>,
    person: SubjectId,
    group: GroupId,
) -> Result<Vec<u8>, AllocError>
    ensures { IfOk result (λ bytes. IsWhyLine machine.now person group bytes.items) }
{
    let facts = machine.facts();
    let kept = machine.kept();
    let rows = facts.rows(alloc)?;
    let statements = explain(
        alloc,
        kept,
        &rows,
        machine.clock(),
        person,
        group,
        MOST_WAYS,
    )?;
    why_line(alloc, facts, kept.is_member(group, person), &statements)
}

/// Prints whether a person is an effective member of a group, and why. Costs a pass over all rows,
/// and what the ways cost that it lists.
pub fn why_report<K: Kept>(
    alloc: Global,
    machine: &Machine<K>,
    subject: &Text,
    group: &Text,
) -> Result<Vec<u8>, Unreported>
    ensures { Tells result (WhyTold machine.now subject.now group.now) }
{
    let (person, id) = why_asked(alloc, machine.facts(), subject, group)?;
    let line = reasons_line(alloc, machine, person, id)?;
    Ok(line)
}
