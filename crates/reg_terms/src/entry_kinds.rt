// The kinds of entries of the change log.
ghost use Rattle.std.specs.Prelude.{◌≡◌, Some, IfSome};
ghost use Rattle.reg_terms.specs.declared.entry_kinds.EntryKind.{EntryKind};
ghost use Rattle.reg_terms.specs.EntryWords.{word_of, kind_worded};

/// What was changed, or which effective membership began or ended.
#[derive(Clone, Copy, PartialEq, Eq)]
pub enum EntryKind {
    FolderAdd,
    FolderRename,
    FolderMove,
    FolderDelete,
    SubjectAdd,
    GroupAdd,
    GroupRename,
    GroupMove,
    GroupDelete,
    RowAdd,
    RowRemove,
    RowWindow,
    CompositeSet,
    CompositeClear,
    GrantAdd,
    GrantRemove,
    InheritAdd,
    InheritRemove,
    DefinitionAdd,
    DefinitionDelete,
    AttributeAdd,
    AttributeDelete,
    AssignAdd,
    AssignRemove,
    ValueAdd,
    ValueRemove,
    RuleAdd,
    RuleDelete,
    JobAdd,
    JobDelete,
    MemberBegin,
    MemberEnd,
}

/// Every kind.
const KINDS: [EntryKind; 32] = [
    EntryKind::FolderAdd,
    EntryKind::FolderRename,
    EntryKind::FolderMove,
    EntryKind::FolderDelete,
    EntryKind::SubjectAdd,
    EntryKind::GroupAdd,
    EntryKind::GroupRename,
    EntryKind::GroupMove,
    EntryKind::GroupDelete,
    EntryKind::RowAdd,
    EntryKind::RowRemove,
    EntryKind::RowWindow,
    EntryKind::CompositeSet,
    EntryKind::CompositeClear,
    EntryKind::GrantAdd,
    EntryKind::GrantRemove,
    EntryKind::InheritAdd,
    EntryKind::InheritRemove,
    EntryKind::DefinitionAdd,
    EntryKind::DefinitionDelete,
    EntryKind::AttributeAdd,
    EntryKind::AttributeDelete,
    EntryKind::AssignAdd,
    EntryKind::AssignRemove,
    EntryKind::ValueAdd,
    EntryKind::ValueRemove,
    EntryKind::RuleAdd,
    EntryKind::RuleDelete,
    EntryKind::JobAdd,
    EntryKind::JobDelete,
    EntryKind::MemberBegin,
    EntryKind::MemberEnd,
];

impl EntryKind {
    /// The word that is printed for it, as `folder.add`.
    pub fn word(&self) -> &'static str
        ensures { result.now ≡ word_of self.now }
    {
        match self {
            EntryKind::FolderAdd => "folder.add",
            EntryKind::FolderRename => "folder.rename",
            EntryKind::FolderMove => "folder.move",
            EntryKind::FolderDelete => "folder.delete",
            EntryKind::SubjectAdd => "subject.add",
            EntryKind::GroupAdd => "group.add",
            EntryKind::GroupRename => "group.rename",
            EntryKind::GroupMove => "group.move",
            EntryKind::GroupDelete => "group.delete",
            EntryKind::RowAdd => "row.add",
            EntryKind::RowRemove => "row.remove",
            EntryKind::RowWindow => "row.window",
            EntryKind::CompositeSet => "composite.set",
            EntryKind::CompositeClear => "composite.clear",
            EntryKind::GrantAdd => "grant.add",
            EntryKind::GrantRemove => "grant.remove",
            EntryKind::InheritAdd => "inherit.add",
            EntryKind::InheritRemove => "inherit.remove",
            EntryKind::DefinitionAdd => "definition.add",
            EntryKind::DefinitionDelete => "definition.delete",
            EntryKind::AttributeAdd => "attribute.add",
            EntryKind::AttributeDelete => "attribute.delete",
            EntryKind::AssignAdd => "assign.add",
            EntryKind::AssignRemove => "assign.remove",
            EntryKind::ValueAdd => "value.add",
            EntryKind::ValueRemove => "value.remove",
            EntryKind::RuleAdd => "rule.add",
            EntryKind::RuleDelete => "rule.delete",
            EntryKind::JobAdd => "job.add",
            EntryKind::JobDelete => "job.delete",
            EntryKind::MemberBegin => "member.begin",
            EntryKind::MemberEnd => "member.end",
        }
    }

    /// The kind whose word it is. None exactly where no kind has that word.
    pub fn parse(word: &str) -> Option<EntryKind>
        ensures kind { result ≡ kind_worded word.now }
        ensures has { IfSome result (λ k. word_of k ≡ word.now) }
        ensures own { (k : EntryKind) → word.now ≡ word_of k → result ≡ Some k }
    {
        worded(word)
    }
}

/// The first kind whose word it is.
#[tactic(auto, unfolding(crate::specs::EntryWords::kind_worded))]
fn worded(word: &str) -> Option<EntryKind>
    ensures { result ≡ kind_worded word.now }
{
    KINDS.iter().copied().find(|kind| kind.word() == word)
}
