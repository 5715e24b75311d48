// Simple commands for `clap`: how they are made, and what they find.
ghost use Rattle.std.specs.Prelude.{◌≡◌, ◌≢◌, [], true, IfOk, MatchOption, map, string_bytes};
ghost use Rattle.clap.specs.Words.{app_of, fault_of, first_of, found_of, is_simple_and_free};
ghost use Rattle.clap.specs.Words.{matches_of, rows_of};
ghost use Rattle.reg_words.specs.Words.{apply, bare, with_word, with_option, members, history};
ghost use Rattle.reg_words.specs.Words.{load, sample, permit, permitted, attested, attestation};
ghost use Rattle.reg_words.specs.Words.{as_of, commands, provision, serve, why};

use clap::error::ErrorKind;
use clap::{Arg, ArgAction, ArgMatches, Command};
use reg_base::Text;
use std::alloc::{AllocError, Global};

/// A command that takes no words.
pub fn bare<'a>(alloc: Global, name: &'a str) -> Command<'a>
    ensures { app_of result ≡ bare name.entry.now }
{
    Command::new(alloc, name).disable_help_flag(true)
}

/// The command with a positional word more.
fn with_word<'a>(
    alloc: Global,
    command: Command<'a>,
    id: &'a str,
) -> Result<Command<'a>, AllocError>
    ensures { IfOk result (λ c. app_of c ≡ with_word id.entry.now (app_of command.entry)) }
{
    let word = Arg::new(alloc, id).required(true).action(ArgAction::Set);
    command.arg(word)
}

/// The command with an option more.
fn with_option<'a>(
    alloc: Global,
    command: Command<'a>,
    id: &'a str,
) -> Result<Command<'a>, AllocError>
    ensures { IfOk result (λ c. app_of c ≡ with_option id.entry.now (app_of command.entry)) }
{
    let option = Arg::new(alloc, id).long(id).action(ArgAction::Set);
    command.arg(option)
}

/// `apply [--together N]`
pub fn apply<'a>(alloc: Global) -> Result<Command<'a>, AllocError>
    ensures { IfOk result (λ c. app_of c ≡ apply) }
{
    let command = bare(alloc, "apply");
    with_option(alloc, command, "together")
}

/// `members NAME [--at T]`
pub fn members<'a>(alloc: Global) -> Result<Command<'a>, AllocError>
    ensures { IfOk result (λ c. app_of c ≡ members) }
{
    let command = bare(alloc, "members");
    let command = with_word(alloc, command, "name")?;
    with_option(alloc, command, "at")
}

/// `history NAME`
pub fn history<'a>(alloc: Global) -> Result<Command<'a>, AllocError>
    ensures { IfOk result (λ c. app_of c ≡ history) }
{
    let command = bare(alloc, "history");
    with_word(alloc, command, "name")
}

/// `serve PORT [--connections N]`
pub fn serve<'a>(alloc: Global) -> Result<Command<'a>, AllocError>
    ensures { IfOk result (λ c. app_of c ≡ serve) }
{
    let command = bare(alloc, "serve");
    let command = with_word(alloc, command, "port")?;
    with_option(alloc, command, "connections")
}

/// `load JOB`
pub fn load<'a>(alloc: Global) -> Result<Command<'a>, AllocError>
    ensures { IfOk result (λ c. app_of c ≡ load) }
{
    let command = bare(alloc, "load");
    with_word(alloc, command, "job")
}

/// `sample SEED SIZE`
pub fn sample<'a>(alloc: Global) -> Result<Command<'a>, AllocError>
    ensures { IfOk result (λ c. app_of c ≡ sample) }
{
    let command = bare(alloc, "sample");
    let command = with_word(alloc, command, "seed")?;
    with_word(alloc, command, "size")
}

/// `permit SUBJECT RESOURCE ACTION`
pub fn permit<'a>(alloc: Global) -> Result<Command<'a>, AllocError>
    ensures { IfOk result (λ c. app_of c ≡ permit) }
{
    let command = bare(alloc, "permit");
    let command = with_word(alloc, command, "subject")?;
    let command = with_word(alloc, command, "resource")?;
    with_word(alloc, command, "action")
}

/// `permitted RESOURCE ACTION`
pub fn permitted<'a>(alloc: Global) -> Result<Command<'a>, AllocError>
    ensures { IfOk result (λ c. app_of c ≡ permitted) }
{
    let command = bare(alloc, "permitted");
    let command = with_word(alloc, command, "resource")?;
    with_word(alloc, command, "action")
}

/// `attested GROUP [--at T]`
pub fn attested<'a>(alloc: Global) -> Result<Command<'a>, AllocError>
    ensures { IfOk result (λ c. app_of c ≡ attested) }
{
    let command = bare(alloc, "attested");
    let command = with_word(alloc, command, "group")?;
    with_option(alloc, command, "at")
}

/// `attestation GROUP`
pub fn attestation<'a>(alloc: Global) -> Result<Command<'a>, AllocError>
    ensures { IfOk result (λ c. app_of c ≡ attestation) }
{
    let command = bare(alloc, "attestation");
    with_word(alloc, command, "group")
}

/// `provision CONSUMER SUBJECT MAX`
pub fn provision<'a>(alloc: Global) -> Result<Command<'a>, AllocError>
    ensures { IfOk result (λ c. app_of c ≡ provision) }
{
    let command = bare(alloc, "provision");
    let command = with_word(alloc, command, "consumer")?;
    let command = with_word(alloc, command, "subject")?;
    with_word(alloc, command, "max")
}

/// `commands [--from N] [--to M]`
pub fn commands<'a>(alloc: Global) -> Result<Command<'a>, AllocError>
    ensures { IfOk result (λ c. app_of c ≡ commands) }
{
    let command = bare(alloc, "commands");
    let command = with_option(alloc, command, "from")?;
    with_option(alloc, command, "to")
}

/// `as-of T`
pub fn as_of<'a>(alloc: Global) -> Result<Command<'a>, AllocError>
    ensures { IfOk result (λ c. app_of c ≡ as_of) }
{
    let command = bare(alloc, "as-of");
    with_word(alloc, command, "at")
}

/// `why SUBJECT GROUP [--at T]`
pub fn why<'a>(alloc: Global) -> Result<Command<'a>, AllocError>
    ensures { IfOk result (λ c. app_of c ≡ why) }
{
    let command = bare(alloc, "why");
    let command = with_word(alloc, command, "subject")?;
    let command = with_word(alloc, command, "group")?;
    with_option(alloc, command, "at")
}

/// What a command finds in the words, of which the first is its own. None where it doesn't take
/// them.
pub fn found<'a>(
    command: Command<'a>,
    words: &'a [String],
) -> Result<Option<ArgMatches<'a>>, AllocError>
    requires { is_simple_and_free (app_of command) ≡ true }
    ensures { IfOk result (λ o.
        MatchOption o (fault_of (app_of command.entry) (map string_bytes words.entry.now) ≢ [])
        (λ m. (fault_of (app_of command.entry) (map string_bytes words.entry.now) ≡ [])
        × (rows_of (found_of m) ≡ matches_of (app_of command.entry)
        (map string_bytes words.entry.now)))) }
{
    match command.try_get_matches_from(words) {
        Ok(matches) => Ok(Some(matches)),
        Err(error) => {
            if error.kind() == ErrorKind::OutOfMemory {
                Err(AllocError)
            } else {
                Ok(None)
            }
        }
    }
}

/// The value that was found for an id, if one was given.
pub fn value(alloc: Global, matches: &ArgMatches, id: &str) -> Result<Option<Text>, AllocError>
    ensures { IfOk result (λ value. value ≡ first_of id.now (rows_of (found_of matches.now))) }
{
    match matches.get_str(id) {
        Some(text) => {
            let text = Text::new(alloc, text)?;
            Ok(Some(text))
        }
        None => Ok(None),
    }
}
