// What a report is about, by its words.
ghost use Rattle.std.specs.Prelude.{◌≡◌, ◌≤◌, true, Some, IfOk, IfSome, IsErr, OnErr, codes};
ghost use Rattle.reg_terms.specs.declared.refusal.Refusal.{Refusal};
ghost use Rattle.reg_facts.specs.Sound.{has_group, has_subject};
ghost use Rattle.reg_access.specs.Grounds.{is_resource};
ghost use Rattle.reg_access.specs.Sayings.{is_action};

use reg_access::{is_action, is_resource};
use reg_base::{AttrId, Entity, GroupId, Moment, SubjectId, Text, is_name};
use reg_facts::Facts;
use reg_terms::Refusal;
use std::alloc::{AllocError, Global};

/// Why nothing is reported.
#[derive(Drop)]
pub enum Unreported {
    /// There was no memory.
    Memory,
    /// The report is refused.
    Refused(Refusal),
}

impl From<AllocError> for Unreported {
    ghost use Rattle.std.specs.Prelude.{◌≡◌};
    ghost use Rattle.reg_report.specs.declared.asked.Unreported.{Unreported};

    ghost from_gives = { λ _ e. e ≡ Unreported.Memory };

    fn from(_: AllocError) -> Unreported {
        Unreported::Memory
    }
}

ghost use Rattle.reg_report.specs.Asked.{check_action, attestation_asked, attested_asked};
ghost use Rattle.reg_report.specs.Asked.{attribute_found, check_name, group_found, in_time};
ghost use Rattle.reg_report.specs.Asked.{moment_asked, moment_at, moment_in, not_later};
ghost use Rattle.reg_report.specs.Asked.{permit_asked, permitted_asked, person_found, person_in};
ghost use Rattle.reg_report.specs.Asked.{resource_in, subject_in, why_asked};
ghost use Rattle.reg_report.specs.Gives.{Gives, IsRefusal};

/// The refusal of a text that is no name.
pub fn bad_name(alloc: Global, field: &str) -> Unreported
    ensures { IsRefusal result (Refusal.BadName field.now) }
{
    match Text::new(alloc, field) {
        Ok(field) => Unreported::Refused(Refusal::BadName { field }),
        Err(AllocError) => Unreported::Memory,
    }
}

/// The refusal of a text that is no moment.
fn bad_moment(alloc: Global) -> Unreported
    ensures { IsRefusal result (Refusal.BadMoment (codes "at")) }
{
    match Text::new(alloc, "at") {
        Ok(field) => Unreported::Refused(Refusal::BadMoment { field }),
        Err(AllocError) => Unreported::Memory,
    }
}

/// The refusal of a text that names nothing that stands.
pub fn not_found(alloc: Global, text: &Text) -> Unreported
    ensures { IsRefusal result (Refusal.NotFound text.now) }
{
    match text.copy(alloc) {
        Ok(object) => Unreported::Refused(Refusal::NotFound { object }),
        Err(AllocError) => Unreported::Memory,
    }
}

/// The refusal of what is of another kind.
fn wrong_kind(alloc: Global, field: &str) -> Unreported
    ensures { IsRefusal result (Refusal.WrongKind field.now) }
{
    match Text::new(alloc, field) {
        Ok(field) => Unreported::Refused(Refusal::WrongKind { field }),
        Err(AllocError) => Unreported::Memory,
    }
}

/// The entity that the subject's text is.
pub fn subject_in(alloc: Global, text: &Text) -> Result<Entity, Unreported>
    ensures { Gives result (subject_in text.now) }
{
    match Entity::parse(alloc, text.bytes()) {
        Ok(Some(entity)) => Ok(entity),
        Ok(None) => Err(bad_name(alloc, "subject")),
        Err(AllocError) => Err(Unreported::Memory),
    }
}

/// The text of a field is a name.
fn check_name(alloc: Global, field: &str, text: &Text) -> Result<(), Unreported>
    ensures { Gives result (check_name field.now text.now) }
{
    if is_name(text.bytes()) {
        Ok(())
    } else {
        Err(bad_name(alloc, field))
    }
}

/// The text is an action.
fn check_action(alloc: Global, text: &Text) -> Result<(), Unreported>
    ensures reads { Gives result (check_action text.now) }
    ensures form { IfOk result (λ _. is_action text.now ≡ true) }
{
    if is_action(text.bytes()) {
        Ok(())
    } else {
        Err(bad_name(alloc, "action"))
    }
}

/// The moment that a text is.
fn moment_at(alloc: Global, text: &Text) -> Result<Moment, Unreported>
    ensures reads { Gives result (moment_at text.now) }
    ensures refused { OnErr result (IsErr (moment_at text.now)) }
{
    match Moment::parse(text.bytes()) {
        Some(moment) => Ok(moment),
        None => Err(bad_moment(alloc)),
    }
}

/// The moment that a text is, where one is given.
fn moment_in(alloc: Global, text: &Option<Text>) -> Result<Option<Moment>, Unreported>
    ensures { Gives result (moment_in text.now) }
{
    match text {
        Some(text) => {
            let moment = moment_at(alloc, text)?;
            Ok(Some(moment))
        }
        None => Ok(None),
    }
}

/// The person of a text, who has to stand.
fn person_of(alloc: Global, facts: &Facts, text: &Text) -> Result<Option<SubjectId>, Unreported>
    ensures found { Gives result (person_found (Entity.Person text.now) facts.now) }
    ensures stands { IfOk result
        (λ found. IfSome found (λ s. has_subject s facts.now.subjects ≡ true)) }
{
    facts.law_grants();
    match facts.subject_id(text.as_str()) {
        Some(id) => Ok(Some(id)),
        None => Err(not_found(alloc, text)),
    }
}

/// The person that an entity is, if it is a person, who has to stand.
pub fn person_found(
    alloc: Global,
    facts: &Facts,
    entity: &Entity,
) -> Result<Option<SubjectId>, Unreported>
    ensures found { Gives result (person_found entity.now facts.now) }
    ensures stands { IfOk result
        (λ found. IfSome found (λ s. has_subject s facts.now.subjects ≡ true)) }
{
    match entity {
        Entity::Person(text) => person_of(alloc, facts, text),
        Entity::Group(_) | Entity::System | Entity::Everyone => Ok(None),
    }
}

/// The attribute of a name.
fn attribute_found(alloc: Global, facts: &Facts, name: &Text) -> Result<AttrId, Unreported>
    ensures { Gives result (attribute_found name.now facts.now) }
{
    match facts.attribute_id(name.as_str()) {
        Some(id) => Ok(id),
        None => Err(not_found(alloc, name)),
    }
}

/// The group of a name.
fn group_found(alloc: Global, facts: &Facts, name: &Text) -> Result<GroupId, Unreported>
    ensures found { Gives result (group_found name.now facts.now) }
    ensures stands { IfOk result (λ g. has_group g facts.now.groups ≡ true) }
{
    facts.law_grants();
    match facts.group_id(name.as_str()) {
        Some(id) => Ok(id),
        None => Err(not_found(alloc, name)),
    }
}

/// A person, and no other entity.
pub fn person_in(alloc: Global, found: Option<SubjectId>) -> Result<SubjectId, Unreported>
    ensures person { Gives result (person_in found) }
    ensures same { IfOk result (λ s. found ≡ Some s) }
{
    match found {
        Some(id) => Ok(id),
        None => Err(wrong_kind(alloc, "subject")),
    }
}

/// An attribute that is a resource.
fn resource_in(alloc: Global, facts: &Facts, attribute: AttrId) -> Result<AttrId, Unreported>
    ensures reads { Gives result (resource_in attribute facts.now) }
    ensures kind { IfOk result (λ r. is_resource r facts.now ≡ true) }
{
    if is_resource(facts, attribute) {
        Ok(attribute)
    } else {
        Err(wrong_kind(alloc, "resource"))
    }
}

/// A moment that may be asked of: one that isn't later than the clock.
fn not_later(clock: Moment, asked: Moment) -> Result<Moment, Unreported>
    ensures reads { Gives result (not_later clock asked) }
    ensures refused { OnErr result (IsErr (not_later clock asked)) }
    ensures past { IfOk result (λ t. t ≤ clock) }
{
    if clock < asked {
        return Err(Unreported::Refused(Refusal::Future { asked, clock }));
    }
    Ok(asked)
}

/// The moment asked of, which is the clock's where none is given, and isn't later than the clock.
fn in_time(clock: Moment, asked: Option<Moment>) -> Result<Moment, Unreported>
    ensures reads { Gives result (in_time clock asked) }
    ensures past { IfOk result (λ t. t ≤ clock) }
{
    match asked {
        Some(asked) => not_later(clock, asked),
        None => Ok(clock),
    }
}

/// The moment that a report is made as of, by its text: it isn't later than the clock. A text that
/// is no moment is refused first.
pub fn moment_asked(alloc: Global, text: &Text, clock: Moment) -> Result<Moment, Unreported>
    ensures reads { Gives result (moment_asked text.now clock) }

    // Memory is wanted for a refusal alone.
    ensures refused { OnErr result (IsErr (moment_asked text.now clock)) }
{
    let asked = moment_at(alloc, text)?;
    not_later(clock, asked)
}

/// The person and the resource that `permit` is about.
pub fn permit_asked(
    alloc: Global,
    facts: &Facts,
    subject: &Text,
    resource: &Text,
    action: &Text,
) -> Result<(SubjectId, AttrId), Unreported>
    ensures reads { Gives result (permit_asked subject.now resource.now action.now facts.now) }
    ensures stands { IfOk result (λ ids. has_subject ids.0 facts.now.subjects ≡ true) }
    ensures kind { IfOk result (λ ids. is_resource ids.1 facts.now ≡ true) }
    ensures form { IfOk result (λ _. is_action action.now ≡ true) }
{
    let entity = subject_in(alloc, subject)?;
    check_name(alloc, "resource", resource)?;
    check_action(alloc, action)?;
    let found = person_found(alloc, facts, &entity)?;
    let attribute = attribute_found(alloc, facts, resource)?;
    let person = person_in(alloc, found)?;
    let resource = resource_in(alloc, facts, attribute)?;
    Ok((person, resource))
}

/// The resource that `permitted` is about.
pub fn permitted_asked(
    alloc: Global,
    facts: &Facts,
    resource: &Text,
    action: &Text,
) -> Result<AttrId, Unreported>
    ensures reads { Gives result (permitted_asked resource.now action.now facts.now) }
    ensures kind { IfOk result (λ r. is_resource r facts.now ≡ true) }
    ensures form { IfOk result (λ _. is_action action.now ≡ true) }
{
    check_name(alloc, "resource", resource)?;
    check_action(alloc, action)?;
    let attribute = attribute_found(alloc, facts, resource)?;
    resource_in(alloc, facts, attribute)
}

/// The group and the moment that `attested` is about.
pub fn attested_asked(
    alloc: Global,
    facts: &Facts,
    clock: Moment,
    group: &Text,
    at: &Option<Text>,
) -> Result<(GroupId, Moment), Unreported>
    ensures reads { Gives result (attested_asked group.now at.now clock facts.now) }
    ensures stands { IfOk result (λ asked. has_group asked.0 facts.now.groups ≡ true) }
    ensures past { IfOk result (λ asked. asked.1 ≤ clock) }
{
    check_name(alloc, "group", group)?;
    let moment = moment_in(alloc, at)?;
    let id = group_found(alloc, facts, group)?;
    let t = in_time(clock, moment)?;
    Ok((id, t))
}

/// The person and the group that `why` is about.
pub fn why_asked(
    alloc: Global,
    facts: &Facts,
    subject: &Text,
    group: &Text,
) -> Result<(SubjectId, GroupId), Unreported>
    ensures { Gives result (why_asked subject.now group.now facts.now) }
{
    let entity = subject_in(alloc, subject)?;
    check_name(alloc, "group", group)?;
    let found = person_found(alloc, facts, &entity)?;
    let id = group_found(alloc, facts, group)?;
    let person = person_in(alloc, found)?;
    Ok((person, id))
}

/// The group that `attestation` is about.
pub fn attestation_asked(alloc: Global, facts: &Facts, group: &Text) -> Result<GroupId, Unreported>
    ensures reads { Gives result (attestation_asked group.now facts.now) }
    ensures stands { IfOk result (λ g. has_group g facts.now.groups ≡ true) }
{
    check_name(alloc, "group", group)?;
    group_found(alloc, facts, group)
}
