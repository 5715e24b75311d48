// Consumers, groups that are gone, loader jobs and rules as JSON.
ghost use Rattle.std.specs.Prelude.{◌≡◌, ◌++◌, ◌∷◌, [], OnOk, codes};
ghost use Rattle.json.specs.Token.{begin_array, key};
ghost use Rattle.json.specs.Tree.{json_tokens};
ghost use Rattle.serde_json.specs.Data.{array};
ghost use Rattle.serde_json.specs.Written.{outline};
ghost use Rattle.reg_terms.specs.declared.admin_shown.FormShown.TheVariants as form;
ghost use Rattle.reg_json.specs.AdminReplies.{consumer_data, consumer_items, gone_data, gone_items};
ghost use Rattle.reg_json.specs.AdminReplies.{job_data, job_items, scope_word, form_data};
ghost use Rattle.reg_json.specs.AdminReplies.{rule_data, rule_items};

use crate::flat::{Scalar, put_object};
use json::Writer;
use reg_base::{Privilege, RuleId, Text};
use reg_terms::{ConsumerShown, FormShown, GoneShown, JobShown, RuleShown, Scope, privilege_name};
use std::alloc::AllocError;

/// A member that is an array, up to where its items begin.
fn begin_items(out: &mut Writer, name: &str) -> Result<(), AllocError>
    ensures ok { OnOk result (out.new.tokens
        ≡ out.old.tokens ++ key name.now ∷ (begin_array ∷ [])) }
    ensures before { out.new.before ≡ out.old.before }
{
    out.key(name)?;
    out.begin_array()
}

fn put_consumer(out: &mut Writer, consumer: &ConsumerShown) -> Result<(), AllocError>
    ensures ok { OnOk result (out.new.tokens
        ≡ out.old.tokens ++ json_tokens (outline (consumer_data consumer.now))) }
    ensures before { out.new.before ≡ out.old.before }
{
    let name = ("consumer", Scalar::Text(consumer.consumer.as_str()));
    let place = ("place", Scalar::Number(consumer.place));
    put_object(out, &[name, place])
}

/// Writes consumers as the array of a member. The only error is out of memory, here and in what
/// follows.
pub fn put_consumers(out: &mut Writer, consumers: &[ConsumerShown]) -> Result<(), AllocError>
    ensures ok { OnOk result (out.new.tokens
        ≡ out.old.tokens ++ key (codes "consumers")
        ∷ json_tokens (outline (array (consumer_items consumers.now)))) }
    ensures before { out.new.before ≡ out.old.before }
{
    begin_items(out, "consumers")?;
    for consumer in consumers {
        put_consumer(out, consumer)?;
    }
    out.end_array()
}

fn put_gone(out: &mut Writer, gone: &GoneShown) -> Result<(), AllocError>
    ensures ok { OnOk result (out.new.tokens
        ≡ out.old.tokens ++ json_tokens (outline (gone_data gone.now))) }
    ensures before { out.new.before ≡ out.old.before }
{
    let ended = ("ended", Scalar::Moment(Some(gone.ended)));
    let group = ("group", Scalar::Text(gone.group.as_str()));
    put_object(out, &[ended, group])
}

/// Writes groups that are gone as the array of a member.
pub fn put_gones(out: &mut Writer, groups: &[GoneShown]) -> Result<(), AllocError>
    ensures ok { OnOk result (out.new.tokens
        ≡ out.old.tokens ++ key (codes "gone")
        ∷ json_tokens (outline (array (gone_items groups.now)))) }
    ensures before { out.new.before ≡ out.old.before }
{
    begin_items(out, "gone")?;
    for group in groups {
        put_gone(out, group)?;
    }
    out.end_array()
}

fn put_job(out: &mut Writer, job: &JobShown) -> Result<(), AllocError>
    ensures ok { OnOk result (out.new.tokens
        ≡ out.old.tokens ++ json_tokens (outline (job_data job.now))) }
    ensures before { out.new.before ≡ out.old.before }
{
    let name = ("job", Scalar::Text(job.job.as_str()));
    let max_percent = ("max_percent", Scalar::Number(job.max_percent));
    let min_size = ("min_size", Scalar::Number(job.min_size));
    let source = ("source", Scalar::Text(job.source.as_str()));
    let target = ("target", Scalar::Text(job.target.as_str()));
    put_object(out, &[name, max_percent, min_size, source, target])
}

/// Writes loader jobs as the array of a member.
pub fn put_jobs(out: &mut Writer, jobs: &[JobShown]) -> Result<(), AllocError>
    ensures ok { OnOk result (out.new.tokens
        ≡ out.old.tokens ++ key (codes "jobs")
        ∷ json_tokens (outline (array (job_items jobs.now)))) }
    ensures before { out.new.before ≡ out.old.before }
{
    begin_items(out, "jobs")?;
    for job in jobs {
        put_job(out, job)?;
    }
    out.end_array()
}

fn put_remove_lost<'a>(
    out: &mut Writer,
    id: RuleId,
    check: &'a Text,
    owner: &'a Text,
) -> Result<(), AllocError>
    ensures ok { OnOk result (out.new.tokens
        ≡ out.old.tokens ++ json_tokens
        (outline (form_data id (form.RemoveLost check.now owner.now)))) }
    ensures before { out.new.before ≡ out.old.before }
{
    let check = ("check", Scalar::Text(check.as_str()));
    let form = ("form", Scalar::Text("remove_lost"));
    let id = ("id", Scalar::Number(u64::from(id.number())));
    let owner = ("owner", Scalar::Text(owner.as_str()));
    put_object(out, &[check, form, id, owner])
}

fn put_end_lost<'a>(
    out: &mut Writer,
    id: RuleId,
    check: &'a Text,
    owner: &'a Text,
    days: u32,
) -> Result<(), AllocError>
    ensures ok { OnOk result (out.new.tokens
        ≡ out.old.tokens ++ json_tokens
        (outline (form_data id (form.EndLost check.now owner.now days)))) }
    ensures before { out.new.before ≡ out.old.before }
{
    let check = ("check", Scalar::Text(check.as_str()));
    let days = ("days", Scalar::Number(u64::from(days)));
    let form = ("form", Scalar::Text("end_lost"));
    let id = ("id", Scalar::Number(u64::from(id.number())));
    let owner = ("owner", Scalar::Text(owner.as_str()));
    put_object(out, &[check, days, form, id, owner])
}

fn put_veto<'a>(
    out: &mut Writer,
    id: RuleId,
    owner: &'a Text,
    condition: &'a Text,
) -> Result<(), AllocError>
    ensures ok { OnOk result (out.new.tokens
        ≡ out.old.tokens ++ json_tokens
        (outline (form_data id (form.Veto owner.now condition.now)))) }
    ensures before { out.new.before ≡ out.old.before }
{
    let condition = ("condition", Scalar::Text(condition.as_str()));
    let form = ("form", Scalar::Text("veto"));
    let id = ("id", Scalar::Number(u64::from(id.number())));
    let owner = ("owner", Scalar::Text(owner.as_str()));
    put_object(out, &[condition, form, id, owner])
}

fn scope_word(scope: Scope) -> &'static str
    ensures { result.now ≡ scope_word scope }
{
    match scope {
        Scope::One => "ONE",
        Scope::Sub => "SUB",
    }
}

fn put_on_create<'a>(
    out: &mut Writer,
    id: RuleId,
    folder: &'a Text,
    scope: Scope,
    privilege: Privilege,
    holder: &'a Text,
) -> Result<(), AllocError>
    ensures ok { OnOk result (out.new.tokens
        ≡ out.old.tokens ++ json_tokens
        (outline (form_data id (form.OnCreate folder.now scope privilege holder.now)))) }
    ensures before { out.new.before ≡ out.old.before }
{
    let folder = ("folder", Scalar::Text(folder.as_str()));
    let form = ("form", Scalar::Text("on_create"));
    let holder = ("holder", Scalar::Text(holder.as_str()));
    let id = ("id", Scalar::Number(u64::from(id.number())));
    let privilege = ("privilege", Scalar::Text(privilege_name(privilege)));
    let scope = ("scope", Scalar::Text(scope_word(scope)));
    put_object(out, &[folder, form, holder, id, privilege, scope])
}

fn put_rule(out: &mut Writer, rule: &RuleShown) -> Result<(), AllocError>
    ensures ok { OnOk result (out.new.tokens
        ≡ out.old.tokens ++ json_tokens (outline (rule_data rule.now))) }
    ensures before { out.new.before ≡ out.old.before }
{
    let id = rule.id;
    match &rule.form {
        FormShown::RemoveLost { check, owner } => put_remove_lost(out, id, check, owner),
        FormShown::EndLost { check, owner, days } => put_end_lost(out, id, check, owner, *days),
        FormShown::Veto { owner, condition } => put_veto(out, id, owner, condition),
        FormShown::OnCreate {
            folder,
            scope,
            privilege,
            holder,
        } => put_on_create(out, id, folder, *scope, *privilege, holder),
    }
}

/// Writes rules as the array of a member.
pub fn put_rules(out: &mut Writer, rules: &[RuleShown]) -> Result<(), AllocError>
    ensures ok { OnOk result (out.new.tokens
        ≡ out.old.tokens ++ key (codes "rules")
        ∷ json_tokens (outline (array (rule_items rules.now)))) }
    ensures before { out.new.before ≡ out.old.before }
{
    begin_items(out, "rules")?;
    for rule in rules {
        put_rule(out, rule)?;
    }
    out.end_array()
}
