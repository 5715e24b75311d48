// From the words to what they ask for.
ghost use Rattle.std.specs.Prelude.{◌≡◌, false, Ok, None, IfOk, map, string_bytes};
ghost use Rattle.clap.specs.Words.{found_of, rows_of};
ghost use Rattle.reg_words.specs.Words.{apply, apply_in, apply_of, as_of, as_of_in};
ghost use Rattle.reg_words.specs.Words.{attestation, attestation_in, attested, attested_in};
ghost use Rattle.reg_words.specs.Words.{history, history_in, load, load_in, members, members_in};
ghost use Rattle.reg_words.specs.Words.{permit, permit_in, permitted, permitted_in};
ghost use Rattle.reg_words.specs.Words.{is_command, name_command, provision, provision_in};
ghost use Rattle.reg_words.specs.Words.{commands, commands_in, commands_of, provision_of};
ghost use Rattle.reg_words.specs.Words.{read_bare, read_by, sample, sample_in, sample_of, serve};
ghost use Rattle.reg_words.specs.Words.{serve_in, serve_of, task_by, task_of};
ghost use Rattle.reg_words.specs.Words.{why, why_in, why_of};

use crate::commands::{
    apply, as_of, attestation, attested, bare, commands, found, history, load, members, permit,
    permitted, provision, sample, serve, value, why,
};
use crate::numbers::{batch_in, connections_in, entries_in, place_in, port_in, seed_in, size_in};
use crate::task::{Places, Provision, Question, Report, Task};
use clap::ArgMatches;
use reg_base::Text;
use std::alloc::{AllocError, Global};

/// Reads the words of a command that takes none behind its own.
fn read_bare(
    alloc: Global,
    name: &str,
    task: Task,
    words: &[String],
) -> Result<Option<Task>, AllocError>
    ensures { IfOk result (λ asked. asked ≡ read_bare name.now task (map string_bytes words.now)) }
{
    let command = bare(alloc, name);
    match found(command, words)? {
        Some(_) => Ok(Some(task)),
        None => Ok(None),
    }
}

/// What `apply` asks, by its word.
fn apply_of(together: &Option<Text>) -> Option<Task>
    ensures { result ≡ apply_of together.now }
{
    match together {
        Some(together) => match batch_in(together) {
            Some(most) => Some(Task::Together { most }),
            None => None,
        },
        None => Some(Task::Apply),
    }
}

/// What `apply` asks, by what it found.
fn apply_in(alloc: Global, matches: &ArgMatches) -> Result<Option<Task>, AllocError>
    ensures { IfOk result (λ asked. asked ≡ apply_in (rows_of (found_of matches.now))) }
{
    let together = value(alloc, matches, "together")?;
    Ok(apply_of(&together))
}

/// What `members` asks, by what it found.
fn members_in(alloc: Global, matches: &ArgMatches) -> Result<Option<Task>, AllocError>
    ensures { IfOk result (λ asked. asked ≡ members_in (rows_of (found_of matches.now))) }
{
    let Some(name) = value(alloc, matches, "name")? else {
        return Ok(None);
    };
    let at = value(alloc, matches, "at")?;
    Ok(Some(Task::Ask(Question::Members { name, at })))
}

/// What `history` asks.
fn history_in(alloc: Global, matches: &ArgMatches) -> Result<Option<Task>, AllocError>
    ensures { IfOk result (λ asked. asked ≡ history_in (rows_of (found_of matches.now))) }
{
    let Some(name) = value(alloc, matches, "name")? else {
        return Ok(None);
    };
    Ok(Some(Task::Ask(Question::History { name })))
}

/// What `load` asks.
fn load_in(alloc: Global, matches: &ArgMatches) -> Result<Option<Task>, AllocError>
    ensures { IfOk result (λ asked. asked ≡ load_in (rows_of (found_of matches.now))) }
{
    let Some(job) = value(alloc, matches, "job")? else {
        return Ok(None);
    };
    Ok(Some(Task::Load { job }))
}

/// What `sample` asks, by its words.
fn sample_of(seed: &Text, size: &Text) -> Option<Task>
    ensures { result ≡ sample_of seed.now size.now }
{
    match (seed_in(seed), size_in(size)) {
        (Some(seed), Some(size)) => Some(Task::Sample { seed, size }),
        _ => None,
    }
}

/// What `sample` asks, by what it found.
fn sample_in(alloc: Global, matches: &ArgMatches) -> Result<Option<Task>, AllocError>
    ensures { IfOk result (λ asked. asked ≡ sample_in (rows_of (found_of matches.now))) }
{
    let Some(seed) = value(alloc, matches, "seed")? else {
        return Ok(None);
    };
    let Some(size) = value(alloc, matches, "size")? else {
        return Ok(None);
    };
    Ok(sample_of(&seed, &size))
}

/// What `serve` asks, by its words.
fn serve_of(port: &Text, connections: &Option<Text>) -> Option<Task>
    ensures { result ≡ serve_of port.now connections.now }
{
    match (port_in(port), connections_in(connections)) {
        (Some(port), Some(connections)) => Some(Task::Serve { port, connections }),
        _ => None,
    }
}

/// What `serve` asks, by what it found.
fn serve_in(alloc: Global, matches: &ArgMatches) -> Result<Option<Task>, AllocError>
    ensures { IfOk result (λ asked. asked ≡ serve_in (rows_of (found_of matches.now))) }
{
    let Some(port) = value(alloc, matches, "port")? else {
        return Ok(None);
    };
    let connections = value(alloc, matches, "connections")?;
    Ok(serve_of(&port, &connections))
}

/// What `permit` asks, by what it found.
fn permit_in(alloc: Global, matches: &ArgMatches) -> Result<Option<Task>, AllocError>
    ensures { IfOk result (λ asked. asked ≡ permit_in (rows_of (found_of matches.now))) }
{
    let Some(subject) = value(alloc, matches, "subject")? else {
        return Ok(None);
    };
    let Some(resource) = value(alloc, matches, "resource")? else {
        return Ok(None);
    };
    let Some(action) = value(alloc, matches, "action")? else {
        return Ok(None);
    };
    Ok(Some(Task::Report(Report::Permit {
        subject,
        resource,
        action,
    })))
}

/// What `permitted` asks.
fn permitted_in(alloc: Global, matches: &ArgMatches) -> Result<Option<Task>, AllocError>
    ensures { IfOk result (λ asked. asked ≡ permitted_in (rows_of (found_of matches.now))) }
{
    let Some(resource) = value(alloc, matches, "resource")? else {
        return Ok(None);
    };
    let Some(action) = value(alloc, matches, "action")? else {
        return Ok(None);
    };
    Ok(Some(Task::Report(Report::Permitted { resource, action })))
}

/// What `attested` asks.
fn attested_in(alloc: Global, matches: &ArgMatches) -> Result<Option<Task>, AllocError>
    ensures { IfOk result (λ asked. asked ≡ attested_in (rows_of (found_of matches.now))) }
{
    let Some(group) = value(alloc, matches, "group")? else {
        return Ok(None);
    };
    let at = value(alloc, matches, "at")?;
    Ok(Some(Task::Report(Report::Attested { group, at })))
}

/// What `attestation` asks.
fn attestation_in(alloc: Global, matches: &ArgMatches) -> Result<Option<Task>, AllocError>
    ensures { IfOk result (λ asked. asked ≡ attestation_in (rows_of (found_of matches.now))) }
{
    let Some(group) = value(alloc, matches, "group")? else {
        return Ok(None);
    };
    Ok(Some(Task::Report(Report::Attestation { group })))
}

/// What `provision` asks, by its words.
fn provision_of(consumer: Text, subject: Text, max: &Text) -> Option<Task>
    ensures { result ≡ provision_of consumer subject max.now }
{
    match entries_in(max) {
        Some(max) => Some(Task::Provision(Provision {
            consumer,
            subject,
            max,
        })),
        None => None,
    }
}

/// What `provision` asks, by what it found.
fn provision_in(alloc: Global, matches: &ArgMatches) -> Result<Option<Task>, AllocError>
    ensures { IfOk result (λ asked. asked ≡ provision_in (rows_of (found_of matches.now))) }
{
    let Some(consumer) = value(alloc, matches, "consumer")? else {
        return Ok(None);
    };
    let Some(person) = value(alloc, matches, "subject")? else {
        return Ok(None);
    };
    let Some(max) = value(alloc, matches, "max")? else {
        return Ok(None);
    };
    Ok(provision_of(consumer, person, &max))
}

/// Reads the words of `apply [--together N]`.
fn read_apply(alloc: Global, words: &[String]) -> Result<Option<Task>, AllocError>
    ensures { IfOk result (λ asked. asked ≡ read_by apply apply_in (map string_bytes words.now)) }
{
    let command = apply(alloc)?;
    match found(command, words)? {
        Some(matches) => apply_in(alloc, &matches),
        None => Ok(None),
    }
}

/// Reads the words of `members NAME [--at T]`.
fn read_members(alloc: Global, words: &[String]) -> Result<Option<Task>, AllocError>
    ensures { IfOk result (λ asked. asked
        ≡ read_by members members_in (map string_bytes words.now)) }
{
    let command = members(alloc)?;
    match found(command, words)? {
        Some(matches) => members_in(alloc, &matches),
        None => Ok(None),
    }
}

/// Reads the words of `history NAME`.
fn read_history(alloc: Global, words: &[String]) -> Result<Option<Task>, AllocError>
    ensures { IfOk result (λ asked. asked
        ≡ read_by history history_in (map string_bytes words.now)) }
{
    let command = history(alloc)?;
    match found(command, words)? {
        Some(matches) => history_in(alloc, &matches),
        None => Ok(None),
    }
}

/// Reads the words of `load JOB`.
fn read_load(alloc: Global, words: &[String]) -> Result<Option<Task>, AllocError>
    ensures { IfOk result (λ asked. asked ≡ read_by load load_in (map string_bytes words.now)) }
{
    let command = load(alloc)?;
    match found(command, words)? {
        Some(matches) => load_in(alloc, &matches),
        None => Ok(None),
    }
}

/// Reads the words of `sample SEED SIZE`.
fn read_sample(alloc: Global, words: &[String]) -> Result<Option<Task>, AllocError>
    ensures { IfOk result (λ asked. asked ≡ read_by sample sample_in (map string_bytes words.now)) }
{
    let command = sample(alloc)?;
    match found(command, words)? {
        Some(matches) => sample_in(alloc, &matches),
        None => Ok(None),
    }
}

/// Reads the words of `serve PORT [--connections N]`.
fn read_serve(alloc: Global, words: &[String]) -> Result<Option<Task>, AllocError>
    ensures { IfOk result (λ asked. asked ≡ read_by serve serve_in (map string_bytes words.now)) }
{
    let command = serve(alloc)?;
    match found(command, words)? {
        Some(matches) => serve_in(alloc, &matches),
        None => Ok(None),
    }
}

/// Reads the words of `permit SUBJECT RESOURCE ACTION`.
fn read_permit(alloc: Global, words: &[String]) -> Result<Option<Task>, AllocError>
    ensures { IfOk result (λ asked. asked
        ≡ read_by permit permit_in (map string_bytes words.now)) }
{
    let command = permit(alloc)?;
    match found(command, words)? {
        Some(matches) => permit_in(alloc, &matches),
        None => Ok(None),
    }
}

/// Reads the words of `permitted RESOURCE ACTION`.
fn read_permitted(alloc: Global, words: &[String]) -> Result<Option<Task>, AllocError>
    ensures { IfOk result (λ asked. asked
        ≡ read_by permitted permitted_in (map string_bytes words.now)) }
{
    let command = permitted(alloc)?;
    match found(command, words)? {
        Some(matches) => permitted_in(alloc, &matches),
        None => Ok(None),
    }
}

/// Reads the words of `attested GROUP [--at T]`.
fn read_attested(alloc: Global, words: &[String]) -> Result<Option<Task>, AllocError>
    ensures { IfOk result (λ asked. asked
        ≡ read_by attested attested_in (map string_bytes words.now)) }
{
    let command = attested(alloc)?;
    match found(command, words)? {
        Some(matches) => attested_in(alloc, &matches),
        None => Ok(None),
    }
}

/// Reads the words of `attestation GROUP`.
fn read_attestation(alloc: Global, words: &[String]) -> Result<Option<Task>, AllocError>
    ensures { IfOk result (λ asked. asked
        ≡ read_by attestation attestation_in (map string_bytes words.now)) }
{
    let command = attestation(alloc)?;
    match found(command, words)? {
        Some(matches) => attestation_in(alloc, &matches),
        None => Ok(None),
    }
}

/// Reads the words of `provision CONSUMER SUBJECT MAX`.
fn read_provision(alloc: Global, words: &[String]) -> Result<Option<Task>, AllocError>
    ensures { IfOk result (λ asked. asked
        ≡ read_by provision provision_in (map string_bytes words.now)) }
{
    let command = provision(alloc)?;
    match found(command, words)? {
        Some(matches) => provision_in(alloc, &matches),
        None => Ok(None),
    }
}

/// What `commands` asks, by its words.
fn commands_of(from: &Option<Text>, to: &Option<Text>) -> Option<Task>
    ensures { result ≡ commands_of from.now to.now }
{
    match (place_in(1, from), place_in(u64::MAX, to)) {
        (Some(from), Some(to)) => Some(Task::Commands(Places { from, to })),
        _ => None,
    }
}

/// What `commands` asks, by what it found.
fn commands_in(alloc: Global, matches: &ArgMatches) -> Result<Option<Task>, AllocError>
    ensures { IfOk result (λ asked. asked ≡ commands_in (rows_of (found_of matches.now))) }
{
    let from = value(alloc, matches, "from")?;
    let to = value(alloc, matches, "to")?;
    Ok(commands_of(&from, &to))
}

/// Reads the words of `commands [--from N] [--to M]`.
fn read_commands(alloc: Global, words: &[String]) -> Result<Option<Task>, AllocError>
    ensures { IfOk result (λ asked. asked
        ≡ read_by commands commands_in (map string_bytes words.now)) }
{
    let command = commands(alloc)?;
    match found(command, words)? {
        Some(matches) => commands_in(alloc, &matches),
        None => Ok(None),
    }
}

/// What `as-of` asks, by what it found.
fn as_of_in(alloc: Global, matches: &ArgMatches) -> Result<Option<Task>, AllocError>
    ensures { IfOk result (λ asked. asked ≡ as_of_in (rows_of (found_of matches.now))) }
{
    let Some(at) = value(alloc, matches, "at")? else {
        return Ok(None);
    };
    Ok(Some(Task::AsOf { at }))
}

/// Reads the words of `as-of T`.
fn read_as_of(alloc: Global, words: &[String]) -> Result<Option<Task>, AllocError>
    ensures { IfOk result (λ asked. asked ≡ read_by as_of as_of_in (map string_bytes words.now)) }
{
    let command = as_of(alloc)?;
    match found(command, words)? {
        Some(matches) => as_of_in(alloc, &matches),
        None => Ok(None),
    }
}

/// What `why` asks, by its words.
fn why_of(subject: Text, group: Text, at: Option<Text>) -> Task
    ensures { result ≡ why_of subject group at }
{
    let report = Report::Why { subject, group };
    match at {
        Some(at) => Task::ReportAsOf { report, at },
        None => Task::Report(report),
    }
}

/// What `why` asks, by what it found.
fn why_in(alloc: Global, matches: &ArgMatches) -> Result<Option<Task>, AllocError>
    ensures { IfOk result (λ asked. asked ≡ why_in (rows_of (found_of matches.now))) }
{
    let Some(subject) = value(alloc, matches, "subject")? else {
        return Ok(None);
    };
    let Some(group) = value(alloc, matches, "group")? else {
        return Ok(None);
    };
    let at = value(alloc, matches, "at")?;
    Ok(Some(why_of(subject, group, at)))
}

/// Reads the words of `why SUBJECT GROUP [--at T]`.
fn read_why(alloc: Global, words: &[String]) -> Result<Option<Task>, AllocError>
    ensures { IfOk result (λ asked. asked ≡ read_by why why_in (map string_bytes words.now)) }
{
    let command = why(alloc)?;
    match found(command, words)? {
        Some(matches) => why_in(alloc, &matches),
        None => Ok(None),
    }
}

/// Reads the words of the command of this name.
fn task_by(alloc: Global, word: &str, words: &[String]) -> Result<Option<Task>, AllocError>
    ensures asked { IfOk result (λ asked. asked
        ≡ task_by word.now (map string_bytes words.now)) }
    ensures unknown { is_command word.now ≡ false → result ≡ Ok None }
{
    match word {
        "init" => read_bare(alloc, "init", Task::Init, words),
        "apply" => read_apply(alloc, words),
        "serve" => read_serve(alloc, words),
        "check" => read_bare(alloc, "check", Task::Check, words),
        "members" => read_members(alloc, words),
        "history" => read_history(alloc, words),
        "load" => read_load(alloc, words),
        "sample" => read_sample(alloc, words),
        "permit" => read_permit(alloc, words),
        "permitted" => read_permitted(alloc, words),
        "attested" => read_attested(alloc, words),
        "attestation" => read_attestation(alloc, words),
        "reminders" => read_bare(alloc, "reminders", Task::Report(Report::Reminders), words),
        "provision" => read_provision(alloc, words),
        "commands" => read_commands(alloc, words),
        "as-of" => read_as_of(alloc, words),
        "why" => read_why(alloc, words),
        "migrate" => read_bare(alloc, "migrate", Task::Migrate, words),
        _ => Ok(None),
    }
}

/// What the words ask for: the first names a command (`docs/REQUESTS.md`, "The program"), and the
/// words behind it are that command's. None where they are none of the program's; the only error
/// is out of memory, which comes only where the first word names a command.
pub fn task_of(alloc: Global, words: &[String]) -> Result<Option<Task>, AllocError>
    ensures asked { IfOk result (λ asked. asked ≡ task_of (map string_bytes words.now)) }
    ensures unknown { name_command (map string_bytes words.now) ≡ false → result ≡ Ok None }
{
    match words {
        [word, ..] => task_by(alloc, word.as_str(), words),
        [] => Ok(None),
    }
}
