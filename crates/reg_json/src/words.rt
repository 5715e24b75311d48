// The op that a word names, found by the word's length.
ghost use Rattle.std.specs.Prelude.{◌≡◌};
ghost use Rattle.reg_ops.specs.Table.{kind_named};
ghost use Rattle.reg_json.specs.Words.{of_length, first_named};

use reg_ops::{CommandKind, OpKind, QueryKind, row_of};

/// The ops whose words have so many bytes, in the order of the table. The command of a load comes
/// after the load that a request brings, so no word names it.
#[tactic(auto, unfolding(crate::specs::Words::of_length, crate::specs::Words::all_ops))]
fn of_length(length: usize) -> &'static [OpKind]
    ensures { result.now ≡ of_length length }
{
    match length {
        3 => &[OpKind::Query(QueryKind::May), OpKind::Query(QueryKind::Log)],
        4 => &[
            OpKind::Load,
            OpKind::Command(CommandKind::Load),
            OpKind::Query(QueryKind::Rows),
        ],
        5 => &[OpKind::Query(QueryKind::Admin)],
        6 => &[
            OpKind::Query(QueryKind::Groups),
            OpKind::Query(QueryKind::Grants),
        ],
        7 => &[
            OpKind::Query(QueryKind::Members),
            OpKind::Query(QueryKind::History),
        ],
        8 => &[
            OpKind::Command(CommandKind::AttrAdd),
            OpKind::Command(CommandKind::JobList),
        ],
        9 => &[
            OpKind::Command(CommandKind::GroupAdd),
            OpKind::Command(CommandKind::GrantAdd),
            OpKind::Command(CommandKind::ValueAdd),
            OpKind::Command(CommandKind::RuleVeto),
            OpKind::Query(QueryKind::GroupGet),
        ],
        10 => &[
            OpKind::Command(CommandKind::FolderAdd),
            OpKind::Command(CommandKind::GroupMove),
            OpKind::Command(CommandKind::MemberAdd),
            OpKind::Command(CommandKind::AssignAdd),
            OpKind::Command(CommandKind::JobSimple),
            OpKind::Command(CommandKind::JobDelete),
            OpKind::Query(QueryKind::Attributes),
        ],
        11 => &[
            OpKind::Command(CommandKind::FolderMove),
            OpKind::Command(CommandKind::SubjectAdd),
            OpKind::Command(CommandKind::InheritAdd),
            OpKind::Command(CommandKind::AttrdefAdd),
            OpKind::Command(CommandKind::AttrDelete),
            OpKind::Command(CommandKind::RuleDelete),
            OpKind::Query(QueryKind::FolderList),
        ],
        12 => &[
            OpKind::Command(CommandKind::GroupRename),
            OpKind::Command(CommandKind::GroupDelete),
            OpKind::Command(CommandKind::GrantRemove),
            OpKind::Command(CommandKind::ValueRemove),
            OpKind::Command(CommandKind::ConsumerAdd),
            OpKind::Command(CommandKind::ConsumerAck),
        ],
        13 => &[
            OpKind::Command(CommandKind::FolderRename),
            OpKind::Command(CommandKind::FolderDelete),
            OpKind::Command(CommandKind::MemberRemove),
            OpKind::Command(CommandKind::MemberWindow),
            OpKind::Command(CommandKind::CompositeSet),
            OpKind::Command(CommandKind::AssignRemove),
            OpKind::Command(CommandKind::RuleEndLost),
        ],
        14 => &[
            OpKind::Command(CommandKind::InheritRemove),
            OpKind::Command(CommandKind::AttrdefDelete),
            OpKind::Command(CommandKind::RuleOnCreate),
        ],
        15 => &[OpKind::Command(CommandKind::CompositeClear)],
        16 => &[OpKind::Command(CommandKind::RuleRemoveLost)],
        _ => &[],
    }
}

fn first_named(kinds: &[OpKind], word: &str) -> Option<OpKind>
    ensures { result ≡ first_named kinds.now word.now }
{
    match kinds {
        [] => None,
        [kind, rest @ ..] => if row_of(*kind).word == word {
            Some(*kind)
        } else {
            first_named(rest, word)
        },
    }
}

/// The op that a word names: it is looked for among those whose words are as long.
#[tactic(auto, using(crate::proofs::ByLength::found_by_length))]
pub(crate) fn op_named(word: &str) -> Option<OpKind>
    ensures { result ≡ kind_named word.now }
{
    first_named(of_length(word.len()), word)
}
