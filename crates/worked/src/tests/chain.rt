// A chain of 200 groups, each a member of the next: 2,000 persons are in the first and so in all,
// and one person joins the last and leaves it again, 25,000 times. What recomputes all memberships
// at each command, or folds the history again for each past moment, doesn't end in the time that a
// program of the gate has.
ghost use Rattle.std.specs.Prelude.{◌≡◌, ◌<◌};

use super::otherwise::{Otherwise, expect_number};
use super::registry::{after, put_line};
use reg_base::{GroupId, Moment, Steps, SubjectId};
use reg_effect::{Incremental, Kept};
use reg_machine::Machine;
use std::alloc::{AllocError, Global};
use std::marker::Brand;
use std::sync::ledger::{Blank, Ledger};

/// The first of the commands is made at moment 1, and each at one more. From this one on the last
/// person joins at each odd moment and leaves at each even one.
const FIRST_TURN: u64 = 4_401;

/// The last command, and its moment.
const LAST: u64 = 54_400;

/// The subjects and the groups.
fn put_objects(alloc: Global, lines: &mut Vec<u8>) -> Result<(), AllocError> {
    for person in 0..2_000u64 {
        let fields = format!(in alloc; "\"subject\":\"uni/p{person}\"")?;
        put_line(alloc, lines, "subject.add", &fields)?;
    }
    put_line(alloc, lines, "subject.add", "\"subject\":\"uni/q\"")?;
    for group in 0..200u64 {
        let fields = format!(in alloc; "\"group\":\"c{group}\"")?;
        put_line(alloc, lines, "group.add", &fields)?;
    }
    Ok(())
}

/// Each group in the next one, and the persons in the first.
fn put_memberships(alloc: Global, lines: &mut Vec<u8>) -> Result<(), AllocError> {
    for below in 0..199u64 {
        let group = below + 1;
        let fields = format!(in alloc; "\"group\":\"c{group}\",\"member\":\"g:gsa/c{below}\"")?;
        put_line(alloc, lines, "member.add", &fields)?;
    }
    for person in 0..2_000u64 {
        let fields = format!(in alloc; "\"group\":\"c0\",\"member\":\"uni/p{person}\"")?;
        put_line(alloc, lines, "member.add", &fields)?;
    }
    Ok(())
}

/// All commands, one a line.
fn commands(alloc: Global) -> Result<Vec<u8>, AllocError> {
    let mut lines = Vec::new(alloc);
    put_objects(alloc, &mut lines)?;
    put_memberships(alloc, &mut lines)?;
    let fields = "\"group\":\"c199\",\"member\":\"uni/q\"";
    for _turn in 0..25_000u64 {
        put_line(alloc, &mut lines, "member.add", fields)?;
        put_line(alloc, &mut lines, "member.remove", fields)?;
    }
    Ok(lines)
}

/// At how many of the moments at which the last person joined or left the past tells otherwise.
fn wrong_moments<L: Ledger>(machine: &Machine<Incremental>, blank: Blank) -> u64
    requires name { blank.name ≡ L.name }
    requires parts { blank.parts ≡ L.parts }
    requires some { 0 < blank.parts }
{
    let mut steps = Steps::<L>::open(blank);
    let mut wrong = 0u64;
    for at in FIRST_TURN..=LAST {
        let told = match Moment::new(at) {
            Some(t) if t <= machine.clock() => {
                machine.was_member(GroupId::new(200), SubjectId::new(2_001), t, &mut steps)
            }
            _ => at % 2 == 0,
        };
        if told != (at % 2 == 1) {
            wrong = wrong.saturating_add(1);
        }
    }
    wrong
}

/// The same, for who counts no steps.
fn wrong_moments_told(machine: &Machine<Incremental>) -> u64 {
    wrong_moments::<Brand>(machine, Blank::new(1))
}

/// All commands are accepted, and each change of a membership is in the log. The last group has all
/// persons of the first one; who joined last and left was in it at each moment at which it had
/// joined, and at no other.
fn judge(machine: &Machine<Incremental>) -> Result<(), Otherwise> {
    expect_number(machine.commands() as u64, LAST, "accepted commands")?;
    expect_number(machine.log().last(), 504_400, "entries of the log")?;
    let members = machine.kept().members(GroupId::new(200))?;
    expect_number(members.len() as u64, 2_000, "members of the last group")?;
    let wrong = wrong_moments_told(machine);
    expect_number(wrong, 0, "moments of which the past tells otherwise")
}

/// The chain is made, and judged.
pub fn play(alloc: Global) -> Result<(), Otherwise> {
    let service = after(alloc, commands(alloc)?, LAST)?;
    let judged = judge(service.machine());
    drop(service);
    judged
}
