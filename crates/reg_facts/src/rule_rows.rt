// The rules as contracts see them.
ghost use Rattle.std.specs.Prelude.{◌≡◌, ◌==◌, ◌||◌, ◌++◌, ◌∷◌, [], not, filter, map, IfOk, OnOk};
ghost use Rattle.std.specs.List.{list_any};
ghost use Rattle.std.specs.Option.{option_copied};
ghost use Rattle.reg_terms.specs.Kinds.{same_holder};
ghost use Rattle.reg_terms.specs.Rules.{key_of, other_of, same_key};
ghost use Rattle.reg_terms.specs.declared.kinds.Holder.TheVariants as holder;
ghost use Rattle.reg_terms.specs.declared.rules.RuleKey.TheVariants as key;
ghost use Rattle.reg_terms.specs.declared.rows.RuleRow.{RuleRow};
ghost use Rattle.reg_facts.specs.Ascending.{RulesAscend};
ghost use Rattle.reg_facts.specs.Rules.{rule_by, rules_at, has_rule, is_ruled, is_ruled_folder};
ghost use Rattle.reg_facts.specs.Ruling.{AreIndexed, by_form};

use crate::numbered::{remove_by_id, row_by_id};
use crate::rule_forms::{ByForm, formed, says};
use crate::{Holder, RuleForm, RuleKey, RuleRow};
use reg_base::{FolderId, GroupId, RuleId};
use reg_table::{GroupRows, LinkedTable, Row, Table};
use std::alloc::{AllocError, Global};
use std::marker::Model;

/// The rules. Contracts see the list of them, by id.
#[derive(Drop)]
pub struct RuleRows {
    list: Vec<RuleRow>,
    /// The same rules by what they are looked up by, and by the groups that they name beside that.
    index: LinkedTable<RuleRow>,
    /// The same rules by all that they say.
    forms: Table<ByForm>,
}

impl Model for RuleRows {
    ghost use Rattle.std.specs.Prelude.{List};
    ghost use Rattle.reg_terms.specs.declared.rows.RuleRow.{RuleRow};
    ghost use Rattle.reg_facts.specs.Ruling.{AreIndexed};

    ghost Value = { List RuleRow };

    ghost view = { λ t. t.list.items };

    ghost invariant = { λ t. AreIndexed t.index t.forms t.list.items };
}

/// Adds a copy of a rule behind the others.
fn push_copy(list: &mut Vec<RuleRow>, row: &RuleRow) -> Result<(), AllocError>
    ensures { OnOk result (list.new.items ≡ list.old.items ++ row.now ∷ []) }
{
    // so that the borrow checker's part is told of the modules of what a rule holds
    let _form = row.form;
    let _everyone = Holder::Everyone;
    list.push(*row)?;
    Ok(())
}

/// Takes the rule of this id out of the index of a list, if it is there.
fn unlist(index: &mut LinkedTable<RuleRow>, list: &[RuleRow], id: u32)
    requires ascend { RulesAscend list.now }
    requires same { index.old ≡ list.now }
    ensures { index.new ≡ filter (λ (row : RuleRow). not (row.id == id)) list.now }
{
    if let Some(row) = row_by_id(list, id) {
        index.remove(row.group(), row.place());
    }
}

/// Takes the rule of this id out of those that are found by all that they say, if it is there.
fn unform(forms: &mut Table<ByForm>, list: &[RuleRow], id: u32)
    requires ascend { RulesAscend list.now }
    requires same { forms.old ≡ map by_form list.now }
    ensures { forms.new ≡ map by_form (filter (λ (row : RuleRow). not (row.id == id)) list.now) }
{
    if let Some(row) = row_by_id(list, id) {
        forms.remove(says(&row.form), row.id);
    }
}

impl RuleRows {
    /// No rule. It takes no memory.
    pub fn new(alloc: Global) -> RuleRows
        ensures { result ≡ [] }
    {
        RuleRows {
            list: Vec::new(alloc),
            index: LinkedTable::new(alloc),
            forms: Table::new(alloc),
        }
    }

    /// The rules, by id.
    pub fn as_slice(&self) -> &[RuleRow]
        ensures { result.now ≡ self.now }
    {
        &self.list
    }

    /// The rule of this id. It takes no memory, and is one look where no rule before it was
    /// deleted, else a binary search.
    pub fn get(&self, id: u32) -> Option<&RuleRow>
        ensures { option_copied result ≡ rule_by id self.now }
    {
        row_by_id(self.list.as_slice(), id)
    }

    /// The rules that watch one thing, by id. It takes no memory.
    pub fn at(&self, key: RuleKey) -> GroupRows<'_, RuleRow>
        ensures { result ≡ rules_at key self.now }
    {
        self.index.rows_of(key)
    }

    /// Whether a rule says the same. It takes no memory, and costs a logarithm.
    pub fn has(&self, form: &RuleForm) -> bool
        ensures { result ≡ has_rule form.now self.now }
    {
        self.forms.has_rows(says(form))
    }

    /// Whether a group is what a rule watches.
    fn is_watched(&self, group: GroupId) -> bool
        ensures { result ≡ (list_any
            (λ (row : RuleRow). same_key (key_of row.form) (key.Check group)) self.now
            || list_any (λ (row : RuleRow). same_key (key_of row.form) (key.Owner group))
            self.now) }
    {
        self.index.has_rows(RuleKey::Check(group)) || self.index.has_rows(RuleKey::Owner(group))
    }

    /// Whether a rule speaks of a group beside what it watches.
    fn is_other(&self, group: GroupId) -> bool
        ensures { result ≡ list_any
            (λ (row : RuleRow). same_holder (other_of row.form) (holder.Group group)) self.now }
    {
        self.index.is_linked(group)
    }

    /// Whether a rule names a group. It takes no memory.
    #[tactic(auto, using(crate::proofs::RuleKeys::ruled_is))]
    pub fn is_ruled(&self, group: GroupId) -> bool
        ensures { result ≡ is_ruled group self.now }
    {
        self.is_watched(group) || self.is_other(group)
    }

    /// Whether a rule names a folder. It takes no memory.
    pub fn is_ruled_folder(&self, folder: FolderId) -> bool
        ensures { result ≡ is_ruled_folder folder self.now }
    {
        self.index.has_rows(RuleKey::Folder(folder))
    }

    /// The rules and one more, of a later id. Where there is no memory they are gone.
    pub fn with(self, row: RuleRow) -> Result<RuleRows, AllocError>
        requires { RulesAscend (self ++ row ∷ []) }
        ensures { IfOk result (λ t. t ≡ self ++ row ∷ []) }
    {
        // so that the borrow checker's part is told of the modules of what a rule holds
        let _form = row.form;
        let _everyone = Holder::Everyone;
        let RuleRows {
            mut list,
            mut index,
            mut forms,
        } = self;
        push_copy(&mut list, &row)?;
        forms.push(formed(&row))?;
        index.push(row)?;
        Ok(RuleRows { list, index, forms })
    }

    /// Takes the rule of this id away. It takes no memory.
    pub fn remove(&mut self, id: RuleId)
        ensures { self.new ≡ filter (λ (row : RuleRow). not (row.id == id)) self.old }
    {
        unlist(&mut self.index, self.list.as_slice(), id.number());
        unform(&mut self.forms, self.list.as_slice(), id.number());
        remove_by_id(&mut self.list, id.number());
    }
}
