// How many things that have an id and no name commands have made.
ghost use Rattle.std.specs.Prelude.{◌≡◌, ◌≤◌, ◌<◌, ◌+◌, ◌^◌};
ghost use Rattle.reg_export.specs.Listing.{made_after, made_by, nothing_made};

use reg_terms::Command;

/// How many assignments and rules commands have made.
#[derive(Clone, Copy)]
pub struct Counts {
    pub assigns: u64,
    pub rules: u64,
}

/// No command made anything yet.
pub fn nothing_made() -> Counts
    ensures { result ≡ nothing_made }
{
    Counts {
        assigns: 0,
        rules: 0,
    }
}

/// The id of what a command makes after commands that made so many, where it has one and no name.
#[tactic(auto, unfolding(crate::specs::Listing::made_by))]
pub fn made_by(counts: Counts, command: &Command) -> Option<u64>
    requires assigns { counts.assigns + 1 < 2 ^ 64 }
    requires rules { counts.rules + 1 < 2 ^ 64 }
    ensures { result ≡ made_by counts command.now }
{
    match command {
        Command::AssignAdd { .. } => Some(counts.assigns + 1),
        Command::RuleRemoveLost { .. }
        | Command::RuleEndLost { .. }
        | Command::RuleVeto { .. }
        | Command::RuleOnCreate { .. } => Some(counts.rules + 1),
        _ => None,
    }
}

fn one_assign_more(counts: Counts) -> Counts
    requires { counts.assigns + 1 < 2 ^ 64 }
    ensures { result ≡ record counts { assigns = counts.assigns + 1 } }
{
    Counts {
        assigns: counts.assigns + 1,
        rules: counts.rules,
    }
}

fn one_rule_more(counts: Counts) -> Counts
    requires { counts.rules + 1 < 2 ^ 64 }
    ensures { result ≡ record counts { rules = counts.rules + 1 } }
{
    Counts {
        assigns: counts.assigns,
        rules: counts.rules + 1,
    }
}

/// How many there are after a command.
#[tactic(auto, unfolding(crate::specs::Listing::made_after))]
pub fn made_after(counts: Counts, command: &Command) -> Counts
    requires assigns { counts.assigns + 1 < 2 ^ 64 }
    requires rules { counts.rules + 1 < 2 ^ 64 }
    ensures counts { result ≡ made_after counts command.now }
    ensures assigns { result.assigns ≤ counts.assigns + 1 }
    ensures rules { result.rules ≤ counts.rules + 1 }
{
    match command {
        Command::AssignAdd { .. } => one_assign_more(counts),
        Command::RuleRemoveLost { .. }
        | Command::RuleEndLost { .. }
        | Command::RuleVeto { .. }
        | Command::RuleOnCreate { .. } => one_rule_more(counts),
        _ => counts,
    }
}
