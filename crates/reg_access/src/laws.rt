// What holds of states: each law is the clause of a function that does nothing.
ghost use Rattle.std.specs.Prelude.{◌≡◌, ◌<◌, ◌≤◌, ℕ, List, Option};
ghost use Rattle.std.specs.List.{AllByRecursion};
ghost use Rattle.reg_access.specs.declared.state.StateKind.{StateKind};
ghost use Rattle.reg_access.specs.Attested.{changes, state_by};
ghost use Rattle.reg_access.specs.States.{AreStates};

/// The state stays as it is between the moments that `changes` gives. It does nothing.
pub fn law_constant()
    ensures { (days : Option ℕ) (certified : List ℕ) (u t : ℕ) → u ≤ t
        → AllByRecursion (λ m. u < m → m ≤ t → ⊥) (changes days certified)
        → state_by days certified u ≡ state_by days certified t }
{}

/// Two lists of the same states are one. It does nothing.
pub fn law_one_list()
    ensures { (kind_at : ℕ → StateKind) (now : ℕ) (a b : List (ℕ × StateKind))
        → AreStates kind_at now a → AreStates kind_at now b → a ≡ b }
{}
