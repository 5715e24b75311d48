// Lists of immediate memberships and of composites.
ghost use Rattle.std.specs.Prelude.{◌≡◌, List, IfOk};
ghost use Rattle.reg_terms.specs.declared.rows.MemberRow.{MemberRow};
ghost use Rattle.reg_terms.specs.declared.rows.CompositeRow.{CompositeRow};

use crate::{CompositeRow, MemberRow};
use std::alloc::{AllocError, Global};

/// What lists immediate memberships and composites, as the facts do.
pub trait RowLists {
    ghost rows_of: { Self → List MemberRow };

    ghost composites_of: { Self → List CompositeRow };

    /// The immediate memberships.
    fn member_rows(&self, alloc: Global) -> Result<Vec<MemberRow>, AllocError>
        ensures { IfOk result (λ rows. rows.items ≡ rows_of self.now) };

    /// The composites.
    fn composite_rows(&self, alloc: Global) -> Result<Vec<CompositeRow>, AllocError>
        ensures { IfOk result (λ rows. rows.items ≡ composites_of self.now) };
}
