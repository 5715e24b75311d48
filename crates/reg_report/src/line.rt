// The lines that reports print.
ghost use Rattle.std.specs.Prelude.{◌≡◌, ◌++◌, ◌∷◌, [], true, codes, IfOk, OnOk};
ghost use Rattle.json.specs.Print.{print};
ghost use Rattle.json.specs.Token.{key, boolean};
ghost use Rattle.json.specs.Tree.{json_tokens};
ghost use Rattle.serde_json.specs.Data.{array};
ghost use Rattle.serde_json.specs.Written.{outline};
ghost use Rattle.reg_report.specs.Lines.{attestation_data, attested_data, line, moment_data};
ghost use Rattle.reg_report.specs.Lines.{number_data, period_data, period_items, permit_data};
ghost use Rattle.reg_report.specs.Lines.{permitted_data, strings};

use json::Writer;
use reg_access::{State, StateKind};
use reg_base::Moment;
use reg_terms::Texts;
use std::alloc::{AllocError, Global};

/// The member that each report has. The only error is out of memory.
pub fn put_ok(out: &mut Writer) -> Result<(), AllocError>
    ensures ok { OnOk result (out.new.tokens
        ≡ out.old.tokens ++ key (codes "ok") ∷ (boolean true ∷ [])) }
    ensures before { out.new.before ≡ out.old.before }
{
    out.key("ok")?;
    out.boolean(true)
}

fn put_number(out: &mut Writer, number: Option<u64>) -> Result<(), AllocError>
    ensures ok { OnOk result (out.new.tokens
        ≡ out.old.tokens ++ json_tokens (outline (number_data number))) }
    ensures before { out.new.before ≡ out.old.before }
{
    match number {
        Some(number) => out.u64(number),
        None => out.null(),
    }
}

pub fn put_moment(out: &mut Writer, moment: Option<Moment>) -> Result<(), AllocError>
    ensures ok { OnOk result (out.new.tokens
        ≡ out.old.tokens ++ json_tokens (outline (moment_data moment))) }
    ensures before { out.new.before ≡ out.old.before }
{
    let Some(moment) = moment else {
        return out.null();
    };
    let text = moment.text();
    match str::from_utf8(&text) {
        Ok(text) => out.string(text),
        // the text of a moment is ASCII
        Err(_) => unreachable!(),
    }
}

fn put_strings(out: &mut Writer, texts: &Texts) -> Result<(), AllocError>
    ensures ok { OnOk result (out.new.tokens
        ≡ out.old.tokens ++ json_tokens (outline (array (strings texts.now)))) }
    ensures before { out.new.before ≡ out.old.before }
{
    out.begin_array()?;
    let mut pieces = texts.pieces();
    while let Some(text) = pieces.next() {
        out.string(text)?;
    }
    out.end_array()
}

#[tactic(auto, unfolding(crate::specs::Lines::permit_data))]
fn put_permit(out: &mut Writer, allowed: bool, assign: Option<u64>) -> Result<(), AllocError>
    ensures ok { OnOk result (out.new.tokens
        ≡ out.old.tokens ++ json_tokens (outline (permit_data allowed assign))) }
    ensures before { out.new.before ≡ out.old.before }
{
    out.begin_object()?;
    out.key("allowed")?;
    out.boolean(allowed)?;
    out.key("ground")?;
    put_number(out, assign)?;
    put_ok(out)?;
    out.end_object()
}

#[tactic(auto, unfolding(crate::specs::Lines::permitted_data))]
fn put_permitted(out: &mut Writer, subjects: &Texts) -> Result<(), AllocError>
    ensures ok { OnOk result (out.new.tokens
        ≡ out.old.tokens ++ json_tokens (outline (permitted_data subjects.now))) }
    ensures before { out.new.before ≡ out.old.before }
{
    out.begin_object()?;
    put_ok(out)?;
    out.key("subjects")?;
    put_strings(out, subjects)?;
    out.end_object()
}

#[tactic(auto, unfolding(crate::specs::Lines::attested_data))]
fn put_attested(out: &mut Writer, state: State) -> Result<(), AllocError>
    ensures ok { OnOk result (out.new.tokens
        ≡ out.old.tokens ++ json_tokens (outline (attested_data state))) }
    ensures before { out.new.before ≡ out.old.before }
{
    out.begin_object()?;
    put_ok(out)?;
    out.key("state")?;
    out.string(state.kind.word())?;
    out.key("until")?;
    put_moment(out, state.until)?;
    out.end_object()
}

fn put_period(out: &mut Writer, period: &(Moment, StateKind)) -> Result<(), AllocError>
    ensures ok { OnOk result (out.new.tokens
        ≡ out.old.tokens ++ json_tokens (outline (period_data period.now))) }
    ensures before { out.new.before ≡ out.old.before }
{
    let (from, kind) = *period;
    out.begin_object()?;
    out.key("from")?;
    put_moment(out, Some(from))?;
    out.key("state")?;
    out.string(kind.word())?;
    out.end_object()
}

fn put_periods(out: &mut Writer, states: &[(Moment, StateKind)]) -> Result<(), AllocError>
    ensures ok { OnOk result (out.new.tokens
        ≡ out.old.tokens ++ json_tokens (outline (array (period_items states.now)))) }
    ensures before { out.new.before ≡ out.old.before }
{
    out.begin_array()?;
    for period in states {
        put_period(out, period)?;
    }
    out.end_array()
}

#[tactic(auto, unfolding(crate::specs::Lines::attestation_data))]
fn put_attestation(out: &mut Writer, states: &[(Moment, StateKind)]) -> Result<(), AllocError>
    ensures ok { OnOk result (out.new.tokens
        ≡ out.old.tokens ++ json_tokens (outline (attestation_data states.now))) }
    ensures before { out.new.before ≡ out.old.before }
{
    out.begin_object()?;
    put_ok(out)?;
    out.key("states")?;
    put_periods(out, states)?;
    out.end_object()
}

/// What was written, and LF.
pub fn ended(out: Writer) -> Result<Vec<u8>, AllocError>
    ensures { IfOk result (λ bytes. bytes.items ≡ (out.before ++ print out.tokens) ++ 10 ∷ []) }
{
    let mut bytes = out.into_inner();
    bytes.push(b'\n')?;
    Ok(bytes)
}

/// The line that says whether a person may act so, and which assignment decides it, if one does.
/// The only error is out of memory.
#[tactic(auto, using(crate::proofs::Printing::printed))]
pub fn permit_line(alloc: Global, allowed: bool, assign: Option<u64>) -> Result<Vec<u8>, AllocError>
    ensures { IfOk result (λ bytes. bytes.items ≡ line (permit_data allowed assign)) }
{
    let mut out = Writer::new(Vec::new(alloc));
    put_permit(&mut out, allowed, assign)?;
    ended(out)
}

/// The line of the texts of those who may act so. The only error is out of memory.
#[tactic(auto, using(crate::proofs::Printing::printed))]
pub fn permitted_line(alloc: Global, subjects: &Texts) -> Result<Vec<u8>, AllocError>
    ensures { IfOk result (λ bytes. bytes.items ≡ line (permitted_data subjects.now)) }
{
    let mut out = Writer::new(Vec::new(alloc));
    put_permitted(&mut out, subjects)?;
    ended(out)
}

/// The line of a state of attestation. The only error is out of memory.
#[tactic(auto, using(crate::proofs::Printing::printed))]
pub fn attested_line(alloc: Global, state: State) -> Result<Vec<u8>, AllocError>
    ensures { IfOk result (λ bytes. bytes.items ≡ line (attested_data state)) }
{
    let mut out = Writer::new(Vec::new(alloc));
    put_attested(&mut out, state)?;
    ended(out)
}

/// The line of the states of an attestation, each with the moment from which on it lasts. The only
/// error is out of memory.
#[tactic(auto, using(crate::proofs::Printing::printed))]
pub fn attestation_line(
    alloc: Global,
    states: &[(Moment, StateKind)],
) -> Result<Vec<u8>, AllocError>
    ensures { IfOk result (λ bytes. bytes.items ≡ line (attestation_data states.now)) }
{
    let mut out = Writer::new(Vec::new(alloc));
    put_attestation(&mut out, states)?;
    ended(out)
}
