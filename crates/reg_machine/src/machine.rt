// The machine.
ghost use Rattle.std.specs.Prelude.{◌≡◌, ◌≤◌, ◌+◌, ◌++◌, ◌∷◌, ◌&&◌, [], ℕ, List, Option, IfOk};
ghost use Rattle.std.specs.Prelude.{OnOk, None, Some, true, false, length, option_map};
ghost use Rattle.std.specs.List.{list_any, AllByRecursion};
ghost use Rattle.reg_base.specs.declared.entity.Entity.{Entity};
ghost use Rattle.reg_terms.specs.declared.command.Command.{Command};
ghost use Rattle.reg_terms.specs.declared.kinds.Member.{Member};
ghost use Rattle.reg_terms.specs.declared.lists.LoadRow.{LoadRow};
ghost use Rattle.reg_terms.specs.declared.refusal.Refusal.{Refusal};
ghost use Rattle.reg_terms.specs.declared.rows.JobRow.{JobRow};
ghost use Rattle.reg_terms.specs.declared.rows.MemberRow.{MemberRow};
ghost use Rattle.reg_terms.specs.Rows.{is_row};
ghost use Rattle.reg_facts.specs.Edits as edits;
ghost use Rattle.reg_terms.specs.Rows as terms;
ghost use Rattle.reg_facts.specs.Events.{events_of};
ghost use Rattle.reg_facts.specs.Jobs.{job_by};
ghost use Rattle.reg_facts.specs.Suiting.{CanEdit};
ghost use Rattle.reg_load.specs.LoadChecks.{added_rows};
ghost use Rattle.reg_effect.specs.Order.{has_live_row};
ghost use Rattle.reg_ops.specs.Forms.{has_form, key_fits, takes_key};
ghost use Rattle.reg_priv.specs.May.{who_of};
ghost use Rattle.reg_priv.specs.declared.who.Who.{Who};
ghost use Rattle.reg_machine.specs.Checks as checks;
ghost use Rattle.reg_current.specs.Circles as circles;
ghost use Rattle.reg_current.specs.Dates.{due, is_on, pass_steps};
ghost use Rattle.reg_machine.specs.Formed.{AreFormed};
ghost use Rattle.reg_machine.specs.GrantDates.{grants_by};
ghost use Rattle.reg_machine.specs.Numbers.{NoneLess, is_load, number, tests};
ghost use Rattle.reg_machine.specs.History as histories;
ghost use Rattle.reg_machine.specs.History.{State, appended, start};
ghost use Rattle.reg_machine.specs.Ids.{made_id};
ghost use Rattle.reg_machine.specs.Keys.{KeptCommand, is_free, is_kept_as, keyed};
ghost use Rattle.reg_machine.specs.Telling.{told_of};
ghost use Rattle.reg_machine.specs.Refusals.{refusal, first_of};
ghost use Rattle.reg_current.specs.Holding.{AllHold};
ghost use Rattle.reg_current.specs.Live.{live};
ghost use Rattle.reg_machine.specs.Losing.{TakesLost};
ghost use Rattle.reg_machine.specs.Vetoes.{AllLet, IsLet};
ghost use Rattle.reg_terms.specs.declared.command.Command.TheVariants.{Load, MemberAdd};
ghost use Rattle.reg_terms.specs.declared.command.Stamped.{Stamped};
ghost use Rattle.reg_terms.specs.declared.kinds.Member.TheVariants.{Person};
ghost use Rattle.reg_facts.specs.Naming.{group_id};
ghost use Rattle.reg_machine.specs.Owners.{may_lose};
ghost use Rattle.reg_machine.specs.Past.{log, steps};
ghost use Rattle.reg_machine.specs.Recording.{carried_steps};

use crate::history::History;
use crate::keyed::Keyed;
use crate::recorded::{Recorded, carried_on, passed_on};
use reg_base::{Entity, GroupId, Moment, Steps, Text};
use reg_demand::refused;
use reg_edit::events_of;
use reg_effect::Kept;
use reg_facts::{Command, Event, Facts, Refusal, Stamped};
use reg_load::law_load;
use reg_names::Names;
use std::alloc::{AllocError, AllocFailed, Global};
use std::marker::Model;
use std::sync::ledger::Ledger;
use thiserror::Error;

/// There was no memory, and the machine is gone.
#[derive(Clone, Copy, Debug, PartialEq, Eq, Error)]
#[error("out of memory, and the machine is gone")]
pub struct Spent;

impl From<AllocError> for Spent {
    fn from(_: AllocError) -> Self {
        Spent
    }
}

impl<T: Drop> From<AllocFailed<T>> for Spent {
    fn from(_: AllocFailed<T>) -> Self {
        Spent
    }
}

/// A history with one command more, given under its key if it has one, that made what has this id.
fn push_stamped(
    alloc: Global,
    stamped: History,
    at: Moment,
    by: &Entity,
    key: Option<Text>,
    id: Option<u64>,
    command: Command,
) -> Result<History, Spent>
    requires form { has_form command ≡ true }
    requires id { id ≡ made_id command (histories.facts stamped.commands.items at) }
    requires free { is_free stamped.commands.items by.now key ≡ true }
    ensures { IfOk result (λ h. h.commands.items
        ≡ stamped.commands.items
        ++ (record { at = at; by = by.now; key = key; command = command }) ∷ []) }
{
    let by = by.copy(alloc)?;
    let one = Stamped {
        at,
        by,
        key,
        command,
    };
    let after = stamped.then(alloc, &one, id);
    drop(one);
    after?.ok_or(Spent)
}

/// The registry: its history and its clock, and what they give: the facts, the effective
/// memberships, however `K` keeps them, the graph of all nested groups and factors that stand, and
/// the dates to come. Contracts see history and clock.
#[derive(Drop)]
pub struct Machine<K: Kept> {
    stamped: History,
    pub(crate) recorded: Box<Recorded<K>>,
}

impl<K: Kept> Model for Machine<K> {
    ghost use Rattle.reg_machine.specs.History.{State};
    ghost use Rattle.reg_machine.specs.Recording.{IsRecorded, recording};

    ghost Value = { State };

    ghost view = { λ m. record {
      history = m.stamped.commands.items;
      clock = m.recorded.value.current.clock;
    } };

    ghost invariant = { λ m.
        IsRecorded m.stamped.commands.items
        (recording m.recorded.value.current m.recorded.value.audit) };
}

impl<K: Kept> Machine<K> {
    ghost use Rattle.reg_machine.specs.History.{facts, now_facts};
    ghost use Rattle.reg_machine.specs.Invariant.{IsLegal};

    /// No command, at the moment 0.
    pub fn start(alloc: Global) -> Result<Machine<K>, Spent>
        ensures { IfOk result (λ m. m ≡ start) }
    {
        let recorded = Recorded::start(alloc)?;
        Ok(Machine {
            stamped: History::new(alloc),
            recorded,
        })
    }

    /// How many commands were accepted.
    pub fn commands(&self) -> usize
        ensures { result ≡ length self.now.history }
    {
        self.stamped.len()
    }

    /// Each command of the history isn't refused at its moment after those before it, the moments
    /// never fall, and no caller has one key twice. It does nothing.
    pub fn law_legal(&self)
        ensures { IsLegal self.now.history }
    {
        let _ = &self.stamped;
    }

    /// The greatest moment used so far.
    pub fn clock(&self) -> Moment
        ensures { result ≡ self.now.clock }
    {
        self.recorded.current().clock()
    }

    /// The facts that the history gives at the clock.
    pub fn facts(&self) -> &Facts
        ensures { result.now ≡ now_facts self.now }
    {
        self.recorded.current().facts()
    }

    /// The index of names, which is in step with the facts. It takes no memory.
    pub fn names(&self) -> &Names {
        &Names
    }

    /// The effective memberships at the clock.
    pub fn kept(&self) -> &K
        ensures { K.held result.now ≡ live self.now.clock (now_facts self.now) }
    {
        self.recorded.current().kept()
    }

    /// Whether the group is a factor of a composite, where no row names it.
    pub(crate) fn is_factor(&self, group: GroupId) -> bool
        requires { terms.is_nested group (now_facts self.now).rows ≡ false }
        ensures { result ≡ terms.is_factor group (now_facts self.now).composites }
    {
        self.recorded.current().is_factor(group)
    }

    /// Whether a row of the group that names the other, or a factor, would lead back.
    pub(crate) fn leads_back(&self, group: GroupId, other: GroupId) -> Result<bool, AllocError>
        ensures { IfOk result (λ b. b ≡ circles.leads_back group other (now_facts self.now)) }
    {
        self.recorded.current().leads_back(group, other)
    }

    /// The next date of a membership or a grant, if it comes up to a moment. It is a look at the
    /// first dates to come.
    fn next_date(&self, to: Moment) -> Option<Moment>
        ensures { result ≡ due self.now.clock to (now_facts self.now) }
    {
        self.recorded.current().next_date(to)
    }

    /// What stands from the clock on, as long as no command comes: nothing that is live changes
    /// between two dates, and a row on which no rule acts is on from its beginning until just
    /// before its end. So is each grant, on which no rule ever acts. It does nothing.
    fn law_stays(&self)
        ensures between { (u : ℕ) → self.now.clock ≤ u
            → due self.now.clock u (now_facts self.now) ≡ None
            → live u (facts self.now.history u) ≡ live self.now.clock (now_facts self.now) }
        ensures on { (u g : ℕ) (m : Member) → self.now.clock ≤ u
            → may_lose g m (now_facts self.now).rules ≡ false
            → has_live_row g m (live u (facts self.now.history u)).rows
            ≡ list_any (λ (row : MemberRow). is_row g m row
            && is_on u row) (now_facts self.now).rows }
        ensures granted { (u : ℕ) → self.now.clock ≤ u
            → (facts self.now.history u).grants ≡ grants_by u (now_facts self.now).grants }
    {
        self.recorded.current().law_rows_open();
    }

    /// After each step of the history, a date that came or a command, who stopped being an
    /// effective member of a group by it has no membership that is on in the owner of a rule that
    /// takes it away. It does nothing.
    pub fn law_lost(&self)
        ensures { AllByRecursion TakesLost (steps self.now.history self.now.clock) }
    {
        let _ = &self.stamped;
        reg_rules::law_lost();
    }

    /// Of all tests of a command that hold, a load's aside, the one that is told has the least
    /// number: what isn't found or seen, then what is demanded, then all else. It does nothing.
    pub fn law_order(&self)
        ensures { (by : Entity) (caller : Who) (command : Command) (r : Refusal)
            → who_of by (now_facts self.now) ≡ Some caller → is_load command ≡ false
            → refusal self.now.history self.now.clock by command ≡ Some r
            → NoneLess (number r) (tests self.now.history self.now.clock by caller command) }
    {
        let _ = &self.stamped;
    }

    /// Each command of the history that adds a person to a group found the person, at its moment
    /// and by the facts before it, an effective member of the condition of each veto on the group;
    /// and so did each load that adds persons to groups, but for the groups that it made. It does
    /// nothing.
    pub fn law_vetoed(&self)
        ensures members { (before after : List Stamped) (at : ℕ) (by : Entity)
            (key : Option (List ℕ)) (group : List ℕ)
            (who : Entity) (from until : Option ℕ) (person : ℕ)
            → self.now.history ≡ before
            ++ (record { at = at; by = by; key = key; command = MemberAdd group who from until })
            ∷ after
            → edits.member_of who (facts before at) ≡ Some (Person person)
            → AllLet at (edits.the_id (group_id group (facts before at))) person (facts before at) }
        ensures loads { (before after : List Stamped) (at : ℕ) (by : Entity)
            (key : Option (List ℕ)) (name : List ℕ)
            (created : List (List ℕ)) (removed added : List LoadRow) (job : JobRow)
            → self.now.history ≡ before
            ++ (record { at = at; by = by; key = key; command = Load name created removed added })
            ∷ after
            → job_by name (facts before at).jobs ≡ Some job
            → AllByRecursion (IsLet at (facts before at))
            (added_rows job created (facts before at) added) }
    {
        self.law_legal();
    }

    /// The machine at the next date: the rows and the grants that end there go, those that begin
    /// there come on, and rules do what follows. It takes at most the steps that the dates after it
    /// leave of those up to any later moment.
    fn pass_date<L: Ledger>(
        self,
        alloc: Global,
        date: Moment,
        steps: &mut Steps<L>,
    ) -> Result<Machine<K>, Spent>
        requires { due self.clock date (now_facts self) ≡ Some date }
        ensures moved { IfOk result (λ m. m ≡ record { history = self.history; clock = date }) }
        ensures cost { OnOk result ((u : ℕ) → due self.clock u (now_facts self) ≡ Some date
            → steps.new + pass_steps date u (facts self.history date)
            ≤ steps.old + pass_steps self.clock u (now_facts self)) }
    {
        let Machine { stamped, recorded } = self;
        recorded.audit().law_follows();
        recorded.current().law_date(date);
        let recorded = passed_on(alloc, recorded, date, steps)?;
        Ok(Machine { stamped, recorded })
    }

    /// Sets the clock forward, and changes nothing else: the dates of memberships and grants up to
    /// the new moment come, one after another, and rules do what follows each. It takes at most the
    /// steps of what these dates and the rules change, and where no date comes it is a look at the
    /// first dates to come.
    pub fn advance<L: Ledger>(
        self,
        alloc: Global,
        to: Moment,
        steps: &mut Steps<L>,
    ) -> Result<Machine<K>, Spent>
        requires { self.clock ≤ to }
        ensures moved { IfOk result (λ m. m ≡ record { history = self.history; clock = to }) }
        ensures cost { OnOk result (steps.new
            ≤ steps.old + pass_steps self.clock to (now_facts self)) }

        // As long as no command comes, nothing that is live changes between two dates, and a row on
        // which no rule acts is on from its beginning until just before its end. So is each grant.
        ensures between { due self.clock to (now_facts self) ≡ None
            → live to (facts self.history to) ≡ live self.clock (now_facts self) }
        ensures on { (g : ℕ) (m : Member) → may_lose g m (now_facts self).rules ≡ false
            → has_live_row g m (live to (facts self.history to)).rows
            ≡ list_any (λ (row : MemberRow). is_row g m row && is_on to row) (now_facts self).rows }
        ensures granted { (facts self.history to).grants ≡ grants_by to (now_facts self).grants }
    {
        let mut machine = self;
        machine.law_stays();
        while let Some(date) = machine.next_date(to) {
            machine = machine.pass_date(alloc, date, steps)?;
        }
        machine.recorded.wait(to);
        Ok(machine)
    }

    /// The number of the command that this caller gave under this key, and the id of what it made.
    /// None exactly where there is no such command. It takes no memory.
    pub fn keyed(&self, by: &Entity, key: &[u8]) -> Option<Keyed>
        ensures { result ≡ option_map told_of (keyed self.now.history by.now key.now) }
    {
        self.stamped.keyed(by, key)
    }

    /// Whether this caller gave a command under this key, and it has these bytes. It takes no
    /// memory.
    pub fn is_kept_as(&self, by: &Entity, key: &[u8], bytes: &[u8]) -> bool
        ensures { result ≡ is_kept_as (keyed self.now.history by.now key.now) bytes.now }
    {
        self.stamped.is_kept_as(by, key, bytes)
    }

    /// The id of what a command makes that acts now, where it has one and no name.
    #[tactic(auto, unfolding(crate::specs::Ids::made_id))]
    pub fn made_id(&self, command: &Command) -> Option<u64>
        ensures { result ≡ made_id command.now (now_facts self.now) }
    {
        match command {
            Command::AssignAdd { .. } => Some(u64::from(self.facts().made().assigns) + 1),
            Command::RuleRemoveLost { .. }
            | Command::RuleEndLost { .. }
            | Command::RuleVeto { .. }
            | Command::RuleOnCreate { .. } => Some(u64::from(self.facts().made().rules) + 1),
            _ => None,
        }
    }

    /// A command that was given under a key is told of the same in each history that goes on from
    /// this one. It does nothing.
    pub fn law_kept_stays(&self)
        ensures { (more : List Stamped) (by : Entity) (key : List ℕ) (kept : KeptCommand)
            → keyed self.now.history by key ≡ Some kept
            → keyed (self.now.history ++ more) by key ≡ Some kept }
    {
        let _ = &self.stamped;
    }

    /// The first refusal of a caller's command now (`docs/REGISTRY.md`, "Refusals"), or None.
    #[tactic(auto, unfolding(crate::specs::Refusals::refusal))]
    pub fn decide(
        &self,
        alloc: Global,
        by: &Entity,
        command: &Command,
    ) -> Result<Option<Refusal>, AllocError>
        ensures { IfOk result (λ found. found
            ≡ refusal self.now.history self.now.clock by.now command.now) }
    {
        if let Command::MemberAdd {
            group,
            member,
            from,
            until,
        } = command
        {
            return self.decide_membership(alloc, by, group, member, from, until);
        }
        match refused(alloc, self.facts(), self.kept(), by, command)? {
            Some(refusal) => Ok(Some(refusal)),
            None => self.checked(alloc, by, command),
        }
    }

    /// What refuses a command now, where nothing before all else does.
    #[tactic(auto, unfolding(crate::specs::Checks::checks))]
    fn checked(
        &self,
        alloc: Global,
        by: &Entity,
        command: &Command,
    ) -> Result<Option<Refusal>, AllocError>
        ensures { IfOk result (λ found. found
            ≡ first_of (checks.checks self.now.history
            (length (log self.now.history self.now.clock)) self.now.clock
            (now_facts self.now) by.now command.now)) }
    {
        match command {
            Command::FolderAdd { folder, .. } => self.decide_folder_add(alloc, by, folder),
            Command::FolderRename { folder, extension } => {
                self.decide_folder_rename(alloc, folder, extension)
            }
            Command::FolderMove { folder, to } => self.decide_folder_move(alloc, folder, to),
            Command::FolderDelete { folder } => self.decide_folder_delete(alloc, folder),
            Command::SubjectAdd { subject, .. } => self.decide_subject_add(alloc, subject),
            Command::GroupAdd { group, .. } => self.decide_group_add(alloc, by, group),
            Command::GroupRename { group, extension } => {
                self.decide_group_rename(alloc, group, extension)
            }
            Command::GroupMove { group, to } => self.decide_group_move(alloc, group, to),
            Command::GroupDelete { group } => self.decide_group_delete(alloc, group),
            Command::MemberAdd {
                group,
                member,
                from,
                until,
            } => self.decide_member_add(alloc, group, member, *from, *until),
            Command::MemberRemove { group, member } => {
                self.decide_member_remove(alloc, group, member)
            }
            Command::MemberWindow {
                group,
                member,
                from,
                until,
            } => self.decide_member_window(alloc, group, member, *from, *until),
            Command::CompositeSet {
                group,
                left,
                right,
                ..
            } => self.decide_composite_set(alloc, group, left, right),
            Command::CompositeClear { group } => self.decide_composite_clear(alloc, group),
            Command::GrantAdd {
                object,
                privilege,
                holder,
                from,
                until,
            } => self.decide_grant_add(alloc, object, *privilege, holder, *from, *until),
            Command::GrantRemove {
                object,
                privilege,
                holder,
            } => self.decide_grant_remove(alloc, object, *privilege, holder),
            Command::InheritAdd {
                folder,
                kind,
                scope,
                privilege,
                holder,
            } => self.decide_inherit_add(alloc, folder, *kind, *scope, *privilege, holder),
            Command::InheritRemove {
                folder,
                kind,
                scope,
                privilege,
                holder,
            } => self.decide_inherit_remove(alloc, folder, *kind, *scope, *privilege, holder),
            Command::AttrdefAdd { definition, .. } => {
                self.decide_attrdef_add(alloc, by, definition)
            }
            Command::AttrdefDelete { definition } => self.decide_attrdef_delete(alloc, definition),
            Command::AttrAdd {
                attribute,
                definition,
            } => self.decide_attr_add(alloc, attribute, definition),
            Command::AttrDelete { attribute } => self.decide_attr_delete(alloc, attribute),
            Command::AssignAdd { attribute, object } => {
                self.decide_assign_add(alloc, attribute, object)
            }
            Command::AssignRemove {
                attribute,
                object,
                id,
            } => self.decide_assign_remove(alloc, attribute, object, *id),
            Command::ValueAdd {
                attribute,
                object,
                id,
                value,
            } => self.decide_value_add(alloc, attribute, object, *id, value),
            Command::ValueRemove {
                attribute,
                object,
                id,
                value,
            } => self.decide_value_remove(alloc, attribute, object, *id, value),
            Command::RuleRemoveLost { check, owner } => {
                self.decide_rule_remove_lost(alloc, check, owner)
            }
            Command::RuleEndLost { check, owner, days } => {
                self.decide_rule_end_lost(alloc, check, owner, *days)
            }
            Command::RuleVeto { owner, condition } => {
                self.decide_rule_veto(alloc, owner, condition)
            }
            Command::RuleOnCreate {
                folder,
                scope,
                privilege,
                holder,
            } => self.decide_rule_on_create(alloc, folder, *scope, *privilege, holder),
            Command::RuleDelete { id } => self.decide_rule_delete(alloc, *id),
            Command::JobSimple { job, group, .. } => self.decide_job_simple(alloc, job, group),
            Command::JobList { job, folder, .. } => self.decide_job_list(alloc, job, folder),
            Command::JobDelete { job } => self.decide_job_delete(alloc, job),
            Command::Load {
                job,
                created,
                removed,
                added,
            } => self.decide_load(alloc, by, job, created, removed, added),
            Command::ConsumerAdd { consumer } => self.decide_consumer_add(alloc, consumer),
            Command::ConsumerAck { consumer, seq } => {
                self.decide_consumer_ack(alloc, consumer, *seq)
            }
        }
    }

    /// A law, which does nothing: subjects have texts of persons, and no more memberships stand
    /// than may.
    pub(crate) fn law_formed(&self)
        ensures { AreFormed (now_facts self.now) }
    {
        let _ = &self.stamped;
    }

    /// A law, which does nothing: what a command that isn't refused makes happen suits the facts,
    /// and can happen at the clock.
    fn law_allowed(&self, by: &Entity, command: &Command)
        requires allowed { refusal self.now.history self.now.clock by.now command.now ≡ None }
        requires form { has_form command.now ≡ true }
        ensures suits { CanEdit self.now.clock by.now command.now (now_facts self.now) }
        ensures hold { AllHold self.now.clock
            (events_of self.now.clock by.now command.now (now_facts self.now))
            (now_facts self.now) }
    {
        let _ = by;
        let _ = command;
        let facts = self.facts();
        facts.law_sound();
        facts.law_held();
        facts.law_grants();
        facts.law_owners();
        facts.law_new_group();
        facts.law_job_delete();
        law_load(facts);
    }

    /// The events of a command that isn't refused, at the clock.
    #[tactic(auto, unfolding(reg_facts::specs::Events::events_of))]
    fn events_of(
        &self,
        alloc: Global,
        by: &Entity,
        command: &Command,
    ) -> Result<Vec<Event>, AllocError>
        requires allowed { refusal self.now.history self.now.clock by.now command.now ≡ None }
        requires form { has_form command.now ≡ true }
        ensures events { IfOk result (λ events. events.items
            ≡ events_of self.now.clock by.now command.now (now_facts self.now)) }
        ensures hold { AllHold self.now.clock
            (events_of self.now.clock by.now command.now (now_facts self.now))
            (now_facts self.now) }
    {
        self.law_allowed(by, command);
        match command {
            Command::Load {
                job,
                created,
                removed,
                added,
            } => self.events_of_load(alloc, by, job, created, removed, added),
            _ => events_of(self.facts(), alloc, self.clock(), by, command),
        }
    }

    /// Takes a command that isn't refused into the history, at the clock, under its key if it has
    /// one, and rules do what follows. It takes at most the steps of the changes of live data that
    /// the command and the rules make.
    pub fn apply<L: Ledger>(
        self,
        alloc: Global,
        by: &Entity,
        key: Option<Text>,
        command: Command,
        steps: &mut Steps<L>,
    ) -> Result<Machine<K>, Spent>
        requires allowed { refusal self.history self.clock by.now command ≡ None }
        requires form { has_form command ≡ true }
        requires fits { key_fits (takes_key command) key ≡ true }
        requires free { is_free self.history by.now key ≡ true }
        ensures appended { IfOk result (λ m. m ≡ appended self by.now key command) }
        ensures cost { OnOk result (steps.new
            ≤ steps.old + carried_steps (record {
              clock = self.clock;
              facts = now_facts self;
            }) (events_of self.clock by.now command (now_facts self))) }
    {
        let id = self.made_id(&command);
        let events = self.events_of(alloc, by, &command)?;
        let Machine { stamped, recorded } = self;
        recorded.audit().law_follows();
        let at = recorded.current().clock();
        let stamped = push_stamped(alloc, stamped, at, by, key, id, command)?;
        let recorded = carried_on(alloc, recorded, events, steps)?;
        Ok(Machine { stamped, recorded })
    }
}
