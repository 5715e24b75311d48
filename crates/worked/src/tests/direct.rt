// Public calls that the program itself makes in another form, or not at all: each once, over a
// registry of which the definitions tell the answer.
use super::otherwise::{Otherwise, expect, expect_number};
use super::registry::{after, put_line};
use reg_base::{Entity, FolderId, GroupId, Moment, Name, Privilege, SubjectId, Text};
use reg_effect::Incremental;
use reg_facts::{Command, Facts, Object, Scope};
use reg_keep::NoKeeper;
use reg_machine::Machine;
use reg_names::{Names, in_scope, resolve};
use reg_priv::caller::{is_root, may};
use reg_service::Service;
use std::alloc::{AllocError, Global};

/// The commands, each at the moment of its number. Ann is in `app:vpn` from 9 until just before 10,
/// and from 11 on; Bob is in the wheel group.
const COMMANDS: &[(&str, &str)] = &[
    ("folder.add", "\"folder\":\"etc\""),
    ("group.add", "\"group\":\"etc:sysadmingroup\""),
    ("folder.add", "\"folder\":\"app\""),
    ("group.add", "\"group\":\"app:vpn\""),
    ("folder.add", "\"folder\":\"app:web\""),
    ("group.add", "\"group\":\"app:web:dev\""),
    ("subject.add", "\"subject\":\"uni/ann\""),
    ("subject.add", "\"subject\":\"uni/bob\""),
    ("member.add", "\"group\":\"app:vpn\",\"member\":\"uni/ann\""),
    (
        "member.remove",
        "\"group\":\"app:vpn\",\"member\":\"uni/ann\"",
    ),
    ("member.add", "\"group\":\"app:vpn\",\"member\":\"uni/ann\""),
    (
        "member.add",
        "\"group\":\"etc:sysadmingroup\",\"member\":\"uni/bob\"",
    ),
    (
        "grant.add",
        "\"object\":\"app:vpn\",\"privilege\":\"READ\",\"holder\":\"uni/ann\"",
    ),
];

/// The folder `app`.
fn app() -> FolderId {
    FolderId::new(2)
}

/// The group `app:vpn`.
fn vpn() -> GroupId {
    GroupId::new(2)
}

/// The group `app:web:dev`.
fn dev() -> GroupId {
    GroupId::new(3)
}

/// The registry after the first so many of the commands.
fn registry_after(alloc: Global, count: usize) -> Result<Service<NoKeeper>, Otherwise> {
    let mut lines = Vec::new(alloc);
    let (first, _) = COMMANDS.split_at(count.min(COMMANDS.len()));
    for &(op, fields) in first {
        put_line(alloc, &mut lines, op, fields)?;
    }
    after(alloc, lines, count as u64)
}

/// The registry after all of the commands.
pub fn registry(alloc: Global) -> Result<Service<NoKeeper>, Otherwise> {
    registry_after(alloc, COMMANDS.len())
}

/// Each of the commands is accepted.
pub fn play_commands(machine: &Machine<Incremental>) -> Result<(), Otherwise> {
    let wanted = COMMANDS.len() as u64;
    expect_number(machine.commands() as u64, wanted, "accepted commands")
}

/// Whether an end is this one, or none is wanted and there is none.
fn is_end(end: &Option<Moment>, wanted: Option<u64>) -> bool {
    match end {
        Some(moment) => wanted == Some(moment.micros()),
        None => wanted.is_none(),
    }
}

/// Whether a span begins at one moment and ends just before another, or has no end.
fn is_span(span: &(Moment, Option<Moment>), from: u64, until: Option<u64>) -> bool {
    span.0.micros() == from && is_end(&span.1, until)
}

/// The spans of a membership that was taken away and given again.
pub fn play_spans(machine: &Machine<Incremental>) -> Result<(), Otherwise> {
    let spans = machine.spans(vpn(), SubjectId::new(1))?;
    match spans.as_slice() {
        [first, last] => {
            expect(
                is_span(first, 9, Some(10)),
                "the first span is from 9 until just before 10",
            )?;
            expect(is_span(last, 11, None), "the last one is from 11 on")
        }
        _ => Err(Otherwise::NotSo("there are two spans")),
    }
}

/// Whether a name is this object's.
fn names_it(names: &Names, facts: &Facts, name: &str, wanted: &Object) -> bool {
    match resolve(names, facts, name) {
        Some(object) => object.is(wanted),
        None => false,
    }
}

/// The index that a machine has finds its objects.
pub fn play_machine_names(machine: &Machine<Incremental>) -> Result<(), Otherwise> {
    let names = machine.names();
    let facts = machine.facts();
    let is_found = names_it(names, facts, "app:vpn", &Object::Group(vpn()));
    expect(is_found, "the second group is `app:vpn`")?;
    let is_none = resolve(names, facts, "app:lab").is_none();
    expect(is_none, "there is no `app:lab`")
}

/// The index of facts finds their objects.
pub fn play_names(machine: &Machine<Incremental>) -> Result<(), Otherwise> {
    let facts = machine.facts();
    let names = Names::of(facts);
    let is_found = names_it(&names, facts, "app", &Object::Folder(app()));
    expect(is_found, "the second folder is `app`")?;
    let is_root = names_it(&names, facts, ":", &Object::Folder(FolderId::new(0)));
    expect(is_root, "the root is `:`")
}

/// The index after the command that makes `app:web:dev`, from the facts before it.
fn edited(alloc: Global, before: &Facts) -> Result<Names, Otherwise> {
    let Some(group) = Name::parse(alloc, b"app:web:dev")? else {
        return Err(Otherwise::NotSo("`app:web:dev` is a name"));
    };
    let display = Text::new(alloc, "")?;
    let command = Command::GroupAdd { group, display };
    let names = Names::of(before).edit(before, &command);
    drop(command);
    Ok(names)
}

/// The index of the facts before a command, edited by it, finds what the command makes in the
/// facts after it.
pub fn play_edit(alloc: Global) -> Result<(), Otherwise> {
    let before = registry_after(alloc, 5)?;
    let names = edited(alloc, before.machine().facts());
    drop(before);
    let names = names?;
    let next = registry_after(alloc, 6)?;
    let object = Object::Group(dev());
    let is_found = names_it(&names, next.machine().facts(), "app:web:dev", &object);
    drop(next);
    expect(is_found, "the new group is found")
}

/// A person's entity.
fn person(alloc: Global, text: &str) -> Result<Entity, AllocError> {
    Ok(Entity::Person(Text::new(alloc, text)?))
}

/// Whether a person has a privilege on `app:vpn`.
fn person_may(
    alloc: Global,
    machine: &Machine<Incremental>,
    text: &str,
    privilege: Privilege,
) -> Result<bool, AllocError> {
    let caller = person(alloc, text)?;
    let object = Object::Group(vpn());
    let names = machine.names();
    may(
        machine.facts(),
        names,
        machine.kept(),
        &caller,
        &object,
        privilege,
    )
}

/// What Ann may by a grant, Bob by the wheel group, and who is no caller not at all.
pub fn play_may(alloc: Global, machine: &Machine<Incremental>) -> Result<(), Otherwise> {
    let ann_reads = person_may(alloc, machine, "uni/ann", Privilege::Read)?;
    let ann_updates = person_may(alloc, machine, "uni/ann", Privilege::Update)?;
    let bob_updates = person_may(alloc, machine, "uni/bob", Privilege::Update)?;
    let eve_reads = person_may(alloc, machine, "uni/eve", Privilege::Read)?;
    expect(ann_reads, "Ann may read by her grant")?;
    expect(!ann_updates, "it doesn't give her more")?;
    expect(bob_updates, "Bob may update by the wheel group")?;
    expect(!eve_reads, "who is no caller may not read")
}

/// Whether a caller may do everything.
fn is_caller_root(machine: &Machine<Incremental>, caller: Entity) -> Result<bool, AllocError> {
    is_root(machine.facts(), machine.names(), machine.kept(), &caller)
}

/// Who may do everything: GrouperSystem, and who is in the wheel group.
pub fn play_root(alloc: Global, machine: &Machine<Incremental>) -> Result<(), Otherwise> {
    let ann = is_caller_root(machine, person(alloc, "uni/ann")?)?;
    let bob = is_caller_root(machine, person(alloc, "uni/bob")?)?;
    let system = is_caller_root(machine, Entity::System)?;
    let everyone = is_caller_root(machine, Entity::Everyone)?;
    expect(!ann, "who isn't in the wheel group may not do everything")?;
    expect(bob, "who is in it may")?;
    expect(system, "GrouperSystem may")?;
    expect(!everyone, "what is no caller may not")
}

/// What is in the scope of `app`: directly in it, or at any depth below it.
pub fn play_scopes(machine: &Machine<Incremental>) -> Result<(), Otherwise> {
    let facts = machine.facts();
    let near = Object::Group(vpn());
    let far = Object::Group(dev());
    let own = Object::Folder(app());
    let other = Object::Group(GroupId::new(1));
    let is_near_in_one = in_scope(facts, app(), Scope::One, &near);
    let is_far_in_one = in_scope(facts, app(), Scope::One, &far);
    expect(is_near_in_one, "`app:vpn` is directly in the folder")?;
    expect(!is_far_in_one, "`app:web:dev` isn't")?;
    let is_near_in_sub = in_scope(facts, app(), Scope::Sub, &near);
    let is_far_in_sub = in_scope(facts, app(), Scope::Sub, &far);
    expect(is_near_in_sub, "`app:vpn` is in it or below it")?;
    expect(is_far_in_sub, "and so is `app:web:dev`")?;
    let is_own = in_scope(facts, app(), Scope::Sub, &own);
    let is_other = in_scope(facts, app(), Scope::Sub, &other);
    expect(!is_own, "a folder isn't in its own scope")?;
    expect(!is_other, "nor is a group of another folder")
}
