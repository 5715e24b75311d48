// What holds of reasons: a law is the clause of a function that does nothing.
ghost use Rattle.std.specs.Prelude.{◌≡◌, ◌↔◌, ◌==◌, ℕ, List, [], true, not, length};
ghost use Rattle.std.specs.List.{Contains};
ghost use Rattle.reg_terms.specs.declared.rows.MemberRow.{MemberRow};
ghost use Rattle.reg_terms.specs.Rows.{is_composite};
ghost use Rattle.reg_effect.specs.Changes.{rows_on};
ghost use Rattle.reg_effect.specs.Member.{in_factors, member};
ghost use Rattle.reg_reasons.specs.Ways.{begun};
ghost use Rattle.reg_reasons.specs.Reasons.{IsReason, having, reasons};

use reg_effect::Kept;

/// Where the rows of the live data are those that have begun: a group has the person exactly where
/// there is a reason, the reasons are exactly the ways that the checker takes, and a composite has
/// the person as its factors say. It does nothing.
pub fn law_reasons<K: Kept>(kept: &K)
    ensures has { (at : ℕ) (rows : List MemberRow) (g s : ℕ)
        → (K.held kept.now).rows ≡ rows_on at rows []
        → member (K.held kept.now) g s
        ≡ not (length (reasons (K.held kept.now) (begun at rows) s g) == 0) }
    ensures exact { (at : ℕ) (rows : List MemberRow) (g s : ℕ) (way : List MemberRow)
        → (K.held kept.now).rows ≡ rows_on at rows []
        → Contains (reasons (K.held kept.now) (begun at rows) s g) way
        ↔ IsReason (K.held kept.now) (begun at rows) s g way }
    ensures by_factors { (g s : ℕ) → is_composite g (K.held kept.now).composites ≡ true
        → member (K.held kept.now) g s
        ≡ in_factors (having (K.held kept.now) s) (K.held kept.now).composites g }
{
    let _live = kept.live();
}
