// Edits of one row.
ghost use Rattle.std.specs.Prelude.{◌≡◌, map, Some, option_map};
ghost use Rattle.reg_facts.specs.Edits.{folder_renamed, folder_moved, group_renamed, group_moved};
ghost use Rattle.reg_terms.specs.declared.rows.FolderRow.{FolderRow};
ghost use Rattle.reg_terms.specs.declared.rows.GroupRow.{GroupRow};

use crate::slots::Slots;
use crate::{FolderRow, GroupRow};
use reg_base::{FolderId, GroupId, Text};

/// Gives the folder in a slot another extension.
fn rename_folder_in(slot: &mut Option<FolderRow>, extension: Text)
    ensures { slot.new
        ≡ option_map (λ (row : FolderRow). record row { extension = extension }) slot.old }
{
    if let Some(row) = slot {
        row.extension = extension;
    }
}

/// Puts the folder in a slot into another.
fn move_folder_in(slot: &mut Option<FolderRow>, to: FolderId)
    ensures { slot.new
        ≡ option_map (λ (row : FolderRow). record row { parent = Some to }) slot.old }
{
    if let Some(row) = slot {
        row.parent = Some(to);
    }
}

/// Gives the group in a slot another extension.
fn rename_group_in(slot: &mut Option<GroupRow>, extension: Text)
    ensures { slot.new
        ≡ option_map (λ (row : GroupRow). record row { extension = extension }) slot.old }
{
    if let Some(row) = slot {
        row.extension = extension;
    }
}

/// Puts the group in a slot into another folder.
fn move_group_in(slot: &mut Option<GroupRow>, to: FolderId)
    ensures { slot.new ≡ option_map (λ (row : GroupRow). record row { folder = to }) slot.old }
{
    if let Some(row) = slot {
        row.folder = to;
    }
}

/// Gives a folder another extension.
pub fn rename_folder(rows: &mut Slots<FolderRow>, id: FolderId, extension: Text)
    ensures { rows.new ≡ map (folder_renamed id extension) rows.old }
{
    if let Some(slot) = rows.slots.get_mut(id.number() as usize) {
        rename_folder_in(slot, extension);
    }
}

/// Puts a folder into another.
pub fn move_folder(rows: &mut Slots<FolderRow>, id: FolderId, to: FolderId)
    ensures { rows.new ≡ map (folder_moved id to) rows.old }
{
    if let Some(slot) = rows.slots.get_mut(id.number() as usize) {
        move_folder_in(slot, to);
    }
}

/// Gives a group another extension.
pub fn rename_group(rows: &mut Slots<GroupRow>, id: GroupId, extension: Text)
    ensures { rows.new ≡ map (group_renamed id extension) rows.old }
{
    if let Some(slot) = rows.slots.get_mut(id.number() as usize) {
        rename_group_in(slot, extension);
    }
}

/// Puts a group into another folder.
pub fn move_group(rows: &mut Slots<GroupRow>, id: GroupId, to: FolderId)
    ensures { rows.new ≡ map (group_moved id to) rows.old }
{
    if let Some(slot) = rows.slots.get_mut(id.number() as usize) {
        move_group_in(slot, to);
    }
}
