// The privileges: codes, names, the kinds of object that they are of, and which gives which.
ghost use Rattle.std.specs.Prelude.{◌≡◌};
ghost use Rattle.reg_terms.specs.Privileges.{line_of, code, gives, all_privileges};
ghost use Rattle.reg_terms.specs.Privileges.{privilege_coded, privilege_named};

use crate::InheritKind;
use reg_base::Privilege;

/// Every privilege, by code.
const PRIVILEGES: [Privilege; 16] = [
    Privilege::Admin,
    Privilege::Update,
    Privilege::Read,
    Privilege::View,
    Privilege::Optin,
    Privilege::Optout,
    Privilege::GroupAttrRead,
    Privilege::GroupAttrUpdate,
    Privilege::StemAdmin,
    Privilege::Create,
    Privilege::StemAttrRead,
    Privilege::StemAttrUpdate,
    Privilege::AttrAdmin,
    Privilege::AttrUpdate,
    Privilege::AttrRead,
    Privilege::AttrView,
];

/// The code of a privilege.
pub fn privilege_code(privilege: Privilege) -> u8
    ensures { result ≡ code privilege }
{
    match privilege {
        Privilege::Admin => 1,
        Privilege::Update => 2,
        Privilege::Read => 3,
        Privilege::View => 4,
        Privilege::Optin => 5,
        Privilege::Optout => 6,
        Privilege::GroupAttrRead => 7,
        Privilege::GroupAttrUpdate => 8,
        Privilege::StemAdmin => 9,
        Privilege::Create => 10,
        Privilege::StemAttrRead => 11,
        Privilege::StemAttrUpdate => 12,
        Privilege::AttrAdmin => 13,
        Privilege::AttrUpdate => 14,
        Privilege::AttrRead => 15,
        Privilege::AttrView => 16,
    }
}

/// Grouper's name of a privilege.
pub fn privilege_name(privilege: Privilege) -> &'static str
    ensures { result.now ≡ (line_of privilege).name }
{
    match privilege {
        Privilege::Admin => "ADMIN",
        Privilege::Update => "UPDATE",
        Privilege::Read => "READ",
        Privilege::View => "VIEW",
        Privilege::Optin => "OPTIN",
        Privilege::Optout => "OPTOUT",
        Privilege::GroupAttrRead => "groupAttrRead",
        Privilege::GroupAttrUpdate => "groupAttrUpdate",
        Privilege::StemAdmin => "stemAdmin",
        Privilege::Create => "create",
        Privilege::StemAttrRead => "stemAttrRead",
        Privilege::StemAttrUpdate => "stemAttrUpdate",
        Privilege::AttrAdmin => "attrAdmin",
        Privilege::AttrUpdate => "attrUpdate",
        Privilege::AttrRead => "attrRead",
        Privilege::AttrView => "attrView",
    }
}

/// The kind of objects that a privilege is of.
pub fn privilege_kind(privilege: Privilege) -> InheritKind
    ensures { result ≡ (line_of privilege).on }
{
    match privilege {
        Privilege::Admin
        | Privilege::Update
        | Privilege::Read
        | Privilege::View
        | Privilege::Optin
        | Privilege::Optout
        | Privilege::GroupAttrRead
        | Privilege::GroupAttrUpdate => InheritKind::Group,
        Privilege::StemAdmin
        | Privilege::Create
        | Privilege::StemAttrRead
        | Privilege::StemAttrUpdate => InheritKind::Folder,
        Privilege::AttrAdmin | Privilege::AttrUpdate | Privilege::AttrRead | Privilege::AttrView =>
            InheritKind::Definition,
    }
}

/// Whether a privilege is another, or gives it.
pub fn gives(held: Privilege, wanted: Privilege) -> bool
    ensures { result ≡ gives held wanted }
{
    let code = privilege_code(wanted);
    match held {
        Privilege::Admin => 1 <= code && code <= 8,
        Privilege::Update => code == 2 || (4 <= code && code <= 6),
        Privilege::Read => code == 3 || code == 4,
        Privilege::View => code == 4,
        Privilege::Optin => code == 5 || code == 4,
        Privilege::Optout => code == 6 || code == 4,
        Privilege::GroupAttrRead => code == 7 || code == 4,
        Privilege::GroupAttrUpdate => code == 8 || code == 4,
        Privilege::StemAdmin => 9 <= code && code <= 12,
        Privilege::Create => code == 10,
        Privilege::StemAttrRead => code == 11,
        Privilege::StemAttrUpdate => code == 12,
        Privilege::AttrAdmin => 13 <= code && code <= 16,
        Privilege::AttrUpdate => code == 14 || code == 16,
        Privilege::AttrRead => code == 15 || code == 16,
        Privilege::AttrView => code == 16,
    }
}

/// Every privilege, by code.
pub fn all_privileges() -> &'static [Privilege]
    ensures { result.now ≡ all_privileges }
{
    &PRIVILEGES
}

/// The privilege of a code, if one has it.
#[tactic(auto, unfolding(crate::specs::Privileges::privilege_coded))]
pub fn privilege_coded(code: u8) -> Option<Privilege>
    ensures { result ≡ privilege_coded code }
{
    PRIVILEGES
        .iter()
        .copied()
        .find(|privilege| privilege_code(*privilege) == code)
}

/// The privilege of a name, if one has it.
#[tactic(auto, unfolding(crate::specs::Privileges::privilege_named))]
pub fn privilege_named(word: &str) -> Option<Privilege>
    ensures { result ≡ privilege_named word.now }
{
    PRIVILEGES
        .iter()
        .copied()
        .find(|privilege| privilege_name(*privilege) == word)
}
