// What a question in words asks, by GrouperSystem.
ghost use Rattle.std.specs.Prelude.{◌≡◌, Ok, true, IfOk, codes};
ghost use Rattle.reg_base.specs.Names.{is_name};
ghost use Rattle.reg_terms.specs.declared.refusal.Refusal.{Refusal};
ghost use Rattle.reg_ops.specs.Forms.{is_optional_moment, query_has_form};
ghost use Rattle.reg_session.specs.Pending.{ReadsAs, AsksFormed};

use reg_base::{Bytes, Moment, Name, Text};
use reg_session::LineReading;
use reg_terms::{Op, Query, Refusal, Request};
use reg_words::Question;
use std::alloc::{AllocError, Global};

/// Why a question asks nothing.
#[derive(Drop)]
pub enum NotAsked {
    /// There was no memory.
    Memory,
    /// A text isn't what it has to be.
    Refused(Refusal),
}

ghost use Rattle.reg_run.specs.Questions.{Gives, IsRefusal, asked_by, by_system, group_in};
ghost use Rattle.reg_run.specs.Questions.{history_of, members_of, moment_in, query_of};

/// The refusal of a text that is no name.
fn bad_name(alloc: Global) -> NotAsked
    ensures { IsRefusal result (Refusal.BadName (codes "group")) }
{
    match Text::new(alloc, "group") {
        Ok(field) => NotAsked::Refused(Refusal::BadName { field }),
        Err(AllocError) => NotAsked::Memory,
    }
}

/// The refusal of a text that is no moment.
fn bad_moment(alloc: Global) -> NotAsked
    ensures { IsRefusal result (Refusal.BadMoment (codes "at")) }
{
    match Text::new(alloc, "at") {
        Ok(field) => NotAsked::Refused(Refusal::BadMoment { field }),
        Err(AllocError) => NotAsked::Memory,
    }
}

/// The name of a group that a text is.
fn group_in(alloc: Global, text: &Text) -> Result<Name, NotAsked>
    ensures reads { Gives result (group_in text.now) }
    ensures form { IfOk result (λ name. is_name name ≡ true) }
{
    match Name::parse(alloc, text.bytes()) {
        Ok(Some(name)) => Ok(name),
        Ok(None) => Err(bad_name(alloc)),
        Err(AllocError) => Err(NotAsked::Memory),
    }
}

/// The moment that a text is, where one is given.
fn moment_in(alloc: Global, text: &Option<Text>) -> Result<Option<Moment>, NotAsked>
    ensures reads { Gives result (moment_in text.now) }
    ensures form { IfOk result (λ moment. is_optional_moment moment ≡ true) }
{
    match text {
        Some(text) => match Moment::parse(text.bytes()) {
            Some(moment) => Ok(Some(moment)),
            None => Err(bad_moment(alloc)),
        },
        None => Ok(None),
    }
}

/// The query of `members`.
fn members_of(alloc: Global, name: &Text, at: &Option<Text>) -> Result<Query, NotAsked>
    ensures reads { Gives result (members_of name.now at.now) }
    ensures form { IfOk result (λ query. query_has_form query ≡ true) }
{
    let group = group_in(alloc, name)?;
    let at = moment_in(alloc, at)?;
    Ok(Query::Members { group, at })
}

/// The query of `history`.
fn history_of(alloc: Global, name: &Text) -> Result<Query, NotAsked>
    ensures reads { Gives result (history_of name.now) }
    ensures form { IfOk result (λ query. query_has_form query ≡ true) }
{
    let group = group_in(alloc, name)?;
    Ok(Query::History { group })
}

/// The query of a question.
fn query_of(alloc: Global, question: &Question) -> Result<Query, NotAsked>
    ensures reads { Gives result (query_of question.now) }
    ensures form { IfOk result (λ query. query_has_form query ≡ true) }
{
    match question {
        Question::Members { name, at } => members_of(alloc, name, at),
        Question::History { name } => history_of(alloc, name),
    }
}

/// A query, asked by GrouperSystem.
fn by_system(alloc: Global, query: Query) -> LineReading
    requires { query_has_form query ≡ true }
    ensures reads { ReadsAs result (Ok (by_system query)) }
    ensures form { AsksFormed result }
{
    match Bytes::of(alloc, b"g:isa/GrouperSystem") {
        Ok(by) => LineReading::Asked(Request {
            by,
            key: None,
            op: Op::Query(query),
        }),
        Err(AllocError) => {
            // By a call: dropped in place it would be taken apart by its kinds.
            drop(query);
            LineReading::NoMemory
        }
    }
}

/// What a question asks.
pub fn asked_by(alloc: Global, question: &Question) -> LineReading
    ensures reads { ReadsAs result (asked_by question.now) }
    ensures form { AsksFormed result }
{
    match query_of(alloc, question) {
        Ok(query) => by_system(alloc, query),
        Err(NotAsked::Refused(refusal)) => LineReading::Refused(refusal),
        Err(NotAsked::Memory) => LineReading::NoMemory,
    }
}
