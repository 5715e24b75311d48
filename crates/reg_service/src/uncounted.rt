// The machine for a caller that counts no steps.
ghost use Rattle.std.specs.Prelude.{◌≡◌, ◌≤◌, ◌<◌, IfOk, None, true};
ghost use Rattle.reg_ops.specs.Forms.{has_form, key_fits, takes_key};
ghost use Rattle.reg_machine.specs.History.{appended};
ghost use Rattle.reg_machine.specs.Keys.{is_free};
ghost use Rattle.reg_machine.specs.Refusals.{refusal};

use reg_base::{Entity, Moment, Steps, Text};
use reg_effect::Incremental;
use reg_facts::Command;
use reg_machine::{Machine, Spent};
use std::alloc::Global;
use std::marker::Brand;
use std::sync::ledger::{Blank, Ledger};

fn advance_from<L: Ledger>(
    alloc: Global,
    machine: Machine<Incremental>,
    to: Moment,
    blank: Blank,
) -> Result<Machine<Incremental>, Spent>
    requires later { machine.clock ≤ to }
    requires name { blank.name ≡ L.name }
    requires parts { blank.parts ≡ L.parts }
    requires some { 0 < blank.parts }
    ensures { IfOk result (λ m. m ≡ record { history = machine.history; clock = to }) }
{
    let mut steps = Steps::<L>::open(blank);
    machine.advance(alloc, to, &mut steps)
}

/// The machine with its clock at a later moment.
pub fn advance(
    alloc: Global,
    machine: Machine<Incremental>,
    to: Moment,
) -> Result<Machine<Incremental>, Spent>
    requires { machine.clock ≤ to }
    ensures { IfOk result (λ m. m ≡ record { history = machine.history; clock = to }) }
{
    advance_from::<Brand>(alloc, machine, to, Blank::new(1))
}

fn apply_from<L: Ledger>(
    alloc: Global,
    machine: Machine<Incremental>,
    by: &Entity,
    key: Option<Text>,
    command: Command,
    blank: Blank,
) -> Result<Machine<Incremental>, Spent>
    requires allowed { refusal machine.history machine.clock by.now command ≡ None }
    requires form { has_form command ≡ true }
    requires fits { key_fits (takes_key command) key ≡ true }
    requires free { is_free machine.history by.now key ≡ true }
    requires name { blank.name ≡ L.name }
    requires parts { blank.parts ≡ L.parts }
    requires some { 0 < blank.parts }
    ensures { IfOk result (λ m. m ≡ appended machine by.now key command) }
{
    let mut steps = Steps::<L>::open(blank);
    machine.apply(alloc, by, key, command, &mut steps)
}

/// The machine after a command that isn't refused, under its key if it has one.
pub fn apply(
    alloc: Global,
    machine: Machine<Incremental>,
    by: &Entity,
    key: Option<Text>,
    command: Command,
) -> Result<Machine<Incremental>, Spent>
    requires allowed { refusal machine.history machine.clock by.now command ≡ None }
    requires form { has_form command ≡ true }
    requires fits { key_fits (takes_key command) key ≡ true }
    requires free { is_free machine.history by.now key ≡ true }
    ensures { IfOk result (λ m. m ≡ appended machine by.now key command) }
{
    apply_from::<Brand>(alloc, machine, by, key, command, Blank::new(1))
}
