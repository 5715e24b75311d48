// What holds of the dates that come one after another.
ghost use Rattle.std.specs.Prelude.{◌≡◌, ◌≤◌, ℕ, Some, None};
ghost use Rattle.reg_facts.specs.Lists.{Lists};
ghost use Rattle.reg_current.specs.Dates.{IsFree, IsLeast, date_passed, due, has_date, pass};

/// A law, which does nothing. The date that is due after one moment and up to another is the least
/// that a row or a grant has there, and none is due exactly where none has one. Where none is due
/// the facts stay as they are. Else the dates are the first one, and those behind it over the facts
/// that it leaves. Dates up to one moment and then up to a later one are those up to the later.
pub fn law_dates()
    ensures none { (a b : ℕ) (f : Lists) → due a b f ≡ None → IsFree a b (has_date f) }
    ensures least { (a b d : ℕ) (f : Lists) → due a b f ≡ Some d → IsLeast a b (has_date f) d }
    ensures last { (a b : ℕ) (f : Lists) → due a b f ≡ None → pass a b f ≡ f }
    ensures next { (a b d : ℕ) (f : Lists) → due a b f ≡ Some d
        → pass a b f ≡ pass d b (date_passed a d f) }
    ensures parts { (a b c : ℕ) (f : Lists) → a ≤ b → b ≤ c
        → pass b c (pass a b f) ≡ pass a c f }
{}
