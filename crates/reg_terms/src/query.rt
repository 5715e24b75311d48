// Queries and their answers.
use crate::{
    AssignsShown, ConsumersShown, EntriesShown, FactorsShown, GonesShown, GrantsShown, JobsShown,
    Privileges, RowsShown, RulesShown, SpansShown, Texts,
};
use reg_base::{Entity, Moment, Name, Text};

/// A question that changes nothing (`docs/REQUESTS.md`). A folder is named by its name, or `:` for
/// the root.
#[derive(Drop)]
pub enum Query {
    /// The group of this name.
    GroupGet {
        group: Name,
    },
    /// What stands directly in the folder of this name.
    FolderList {
        folder: Text,
    },
    /// The effective members of the group of this name, now or at a moment before now.
    Members {
        group: Name,
        at: Option<Moment>,
    },
    /// The immediate memberships and the factors of the group of this name.
    Rows {
        group: Name,
    },
    /// The groups that have a person as an effective member, now or at a moment before now.
    Groups {
        subject: Entity,
        at: Option<Moment>,
    },
    /// The privileges granted on an object, written on it or inherited, and their holders, now or
    /// at a moment before now.
    Grants {
        object: Text,
        at: Option<Moment>,
    },
    /// The privileges that an entity has on an object, now or at a moment before now.
    May {
        object: Text,
        entity: Entity,
        at: Option<Moment>,
    },
    /// The attributes that are assigned to an object, with their values, now or at a moment before
    /// now.
    Attributes {
        object: Text,
        at: Option<Moment>,
    },
    /// Who was an effective member of the group of this name, from when and until when.
    History {
        group: Name,
    },
    /// The entries of the change log after the place of a consumer, at most `max`.
    Log {
        consumer: Text,
        max: u64,
    },
    /// What only administrators see: consumers, groups that are gone, loader jobs and rules.
    Admin,
}

/// What a query is answered.
#[derive(Drop)]
pub enum Answer {
    GroupGet {
        display: Text,
        name: Name,
    },
    /// The names of the objects directly in the folder, kind by kind, by bytes.
    FolderList {
        attributes: Texts,
        definitions: Texts,
        folders: Texts,
        groups: Texts,
    },
    /// The texts of the members, in the order of the subjects.
    Members {
        members: Texts,
    },
    /// The factors, if the group is a composite, and its immediate memberships: those of persons by
    /// id, then those of groups by id.
    Rows {
        composite: Option<FactorsShown>,
        rows: RowsShown,
    },
    /// The names of the groups, in the order in which they were made.
    Groups {
        groups: Texts,
    },
    /// By privilege, then everyone, persons and groups, each pair once.
    Grants {
        grants: GrantsShown,
    },
    /// By their codes, and with what they give.
    May {
        privileges: Privileges,
    },
    /// In the order in which the assignments were made.
    Attributes {
        assignments: AssignsShown,
    },
    /// By the moments at which they began, then in the order of the subjects.
    History {
        history: SpansShown,
    },
    /// By their numbers, with the number of the last entry of the log and the consumer's place.
    Log {
        entries: EntriesShown,
        last: u64,
        place: u64,
    },
    /// The consumers in the order in which they were made; the groups that are gone, the jobs and
    /// the rules by id.
    Admin {
        consumers: ConsumersShown,
        gone: GonesShown,
        jobs: JobsShown,
        rules: RulesShown,
    },
}
