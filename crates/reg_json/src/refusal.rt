// Refusals as JSON.
ghost use Rattle.std.specs.Prelude.{◌≡◌, ◌++◌, OnOk};
ghost use Rattle.json.specs.Tree.{json_tokens};
ghost use Rattle.serde_json.specs.Written.{outline};
ghost use Rattle.reg_json.specs.Refusals.{refusal_data};
ghost use Rattle.reg_json.specs.Said.{said_data};

use crate::said::{Carried, Said, put_said};
use json::Writer;
use reg_terms::Refusal;
use std::alloc::AllocError;

/// What a refusal says.
#[tactic(auto, unfolding(crate::specs::Refusals::refusal_data))]
fn said(refusal: &Refusal) -> Said<'_>
    ensures { said_data result ≡ refusal_data refusal.now }
{
    match refusal {
        Refusal::TooLong { limit } => Said::new(1, "TooLong", Carried::Limit(*limit)),
        Refusal::BadRequest { field } => Said::new(2, "BadRequest", Carried::Field(field)),
        Refusal::BadName { field } => Said::new(3, "BadName", Carried::Field(field)),
        Refusal::BadMoment { field } => Said::new(4, "BadMoment", Carried::Field(field)),
        Refusal::NoCaller => Said::new(5, "NoCaller", Carried::Nothing),
        Refusal::NotFound { object } => Said::new(6, "NotFound", Carried::Object(object)),
        Refusal::Denied { object, privilege } => Said::new(
            7,
            "Denied",
            Carried::Demand(object, privilege),
        ),
        Refusal::Future { asked, clock } => Said::new(8, "Future", Carried::Moments(asked, clock)),
        Refusal::BadWindow => Said::new(9, "BadWindow", Carried::Nothing),
        Refusal::WrongKind { field } => Said::new(10, "WrongKind", Carried::Field(field)),
        Refusal::Taken { object } => Said::new(11, "Taken", Carried::Object(object)),
        Refusal::Already => Said::new(12, "Already", Carried::Nothing),
        Refusal::NoSuch => Said::new(13, "NoSuch", Carried::Nothing),
        Refusal::IsComposite { object } => Said::new(14, "IsComposite", Carried::Object(object)),
        Refusal::HasMembers => Said::new(15, "HasMembers", Carried::Nothing),
        Refusal::Circular { object } => Said::new(16, "Circular", Carried::Object(object)),
        Refusal::InUse { used } => Said::new(17, "InUse", Carried::Use(used)),
        Refusal::NotEmpty => Said::new(18, "NotEmpty", Carried::Nothing),
        Refusal::WrongOwner => Said::new(19, "WrongOwner", Carried::Nothing),
        Refusal::WrongValue => Said::new(20, "WrongValue", Carried::Nothing),
        Refusal::Single => Said::new(21, "Single", Carried::Nothing),
        Refusal::Vetoed { rule } => Said::new(22, "Vetoed", Carried::Rule(*rule)),
        Refusal::BadTable { row } => Said::new(23, "BadTable", Carried::Row(*row)),
        Refusal::Failsafe { before, removes } => Said::new(
            24,
            "Failsafe",
            Carried::Removal(*before, *removes),
        ),
        Refusal::Place { kept, last } => Said::new(25, "Place", Carried::Places(*kept, *last)),
        Refusal::Full { kind, limit } => Said::new(26, "Full", Carried::Count(kind, *limit)),
        Refusal::OtherCommand { number } => Said::new(
            27,
            "OtherCommand",
            Carried::Command(*number),
        ),
        Refusal::NoRoute => Said::new(30, "NoRoute", Carried::Nothing),
        Refusal::NoMethod => Said::new(31, "NoMethod", Carried::Nothing),
        Refusal::NoLength => Said::new(32, "NoLength", Carried::Nothing),
        Refusal::Coding => Said::new(33, "Coding", Carried::Nothing),
        Refusal::HeadTooLong => Said::new(34, "HeadTooLong", Carried::Nothing),
        Refusal::NoCallerHeader => Said::new(35, "NoCallerHeader", Carried::Nothing),
        Refusal::BadHead => Said::new(36, "BadHead", Carried::Nothing),
    }
}

/// Writes a refusal: its number, its word and what it carries. The only error is out of memory.
pub fn put_refusal(out: &mut Writer, refusal: &Refusal) -> Result<(), AllocError>
    ensures ok { OnOk result (out.new.tokens
        ≡ out.old.tokens ++ json_tokens (outline (refusal_data refusal.now))) }
    ensures before { out.new.before ≡ out.old.before }
{
    put_said(out, &said(refusal))
}
