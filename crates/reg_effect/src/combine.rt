// The ways to make a composite of its factors.
ghost use Rattle.std.specs.Prelude.{◌≡◌};
ghost use Rattle.reg_effect.specs.Member.{combine};

use reg_terms::SetOp;

/// Whether a composite has a person, by whether its left and right factor have it.
pub(crate) fn combine(op: SetOp, left: bool, right: bool) -> bool
    ensures { result ≡ combine op left right }
{
    match op {
        SetOp::Intersection => left && right,
        SetOp::Complement => left && !right,
        SetOp::Union => left || right,
    }
}
