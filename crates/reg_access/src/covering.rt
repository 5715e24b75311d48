// Resources, and which attribute covers which.
ghost use Rattle.std.specs.Prelude.{◌≡◌, ◌++◌, ◌∷◌, [], nat_eq};
ghost use Rattle.std.specs.List.{starts_with};
ghost use Rattle.reg_access.specs.Covering.{is_permission, covers};

use reg_terms::{AttributeRow, DefKind, DefinitionRow};

/// Whether the attributes of a definition are resources: their values are texts, several of which
/// may stand in one assignment, and they are assigned to groups.
pub(crate) fn is_permission(row: &DefinitionRow) -> bool
    ensures { result ≡ is_permission row.now }
{
    matches!(row.kind, DefKind::Text) && row.many && row.owners.group
}

/// Whether a text begins with another and a point behind it.
fn begins_below(text: &[u8], front: &[u8]) -> bool
    ensures { result ≡ starts_with nat_eq text.now (front.now ++ 46 ∷ []) }
{
    match text.strip_prefix(front) {
        Some(rest) => rest.starts_with(b"."),
        None => false,
    }
}

/// Whether an attribute covers another: it is the same, or both are of one definition, stand in one
/// folder, and the other's extension begins with its own and a point.
pub(crate) fn covers(attribute: &AttributeRow, other: &AttributeRow) -> bool
    ensures { result ≡ covers attribute.now other.now }
{
    if attribute.definition.number() != other.definition.number() {
        return false;
    }
    attribute.id.number() == other.id.number()
        || (attribute.folder.number() == other.folder.number()
            && begins_below(other.extension.bytes(), attribute.extension.bytes()))
}
