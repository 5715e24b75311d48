// What holds of batches: each law is the clause of a function that does nothing.
ghost use Rattle.std.specs.Prelude.{◌≡◌, ◌≤◌, [], ℕ, List, Bool, length, map, take};
ghost use Rattle.reg_terms.specs.declared.command.Stamped.{Stamped};
ghost use Rattle.reg_machine.specs.Past.{log};
ghost use Rattle.reg_prov.specs.declared.target.TargetOp.{TargetOp};
ghost use Rattle.reg_prov.specs.declared.turn.Turn.{Turn};
ghost use Rattle.reg_prov.specs.Boundaries.{start_of};
ghost use Rattle.reg_prov.specs.Targets.{after_ops};
ghost use Rattle.reg_prov.specs.Turns.{AreTurns, IsBetween, op_of};
ghost use Rattle.reg_prov.specs.Wanted.{IsBatch, log_moments, wish_of};

/// Every front of a batch's operations takes a target that is between to one that is between, and
/// all of them take it to what is wished at the batch's last boundary. So a batch that was cut off
/// and is sent again does no harm. It does nothing.
pub fn law_batch()
    ensures fronts { (wish : ℕ → ℕ → ℕ → Bool) (moments : List ℕ) (start last : ℕ)
        (turns : List Turn) (target : ℕ → ℕ → Bool) → AreTurns wish moments start last turns
        → IsBetween wish moments start last target → (k : ℕ)
        → IsBetween wish moments start last (after_ops (take k (map op_of turns)) target) }
    ensures all { (wish : ℕ → ℕ → ℕ → Bool) (moments : List ℕ) (start last : ℕ)
        (turns : List Turn) (target : ℕ → ℕ → Bool) → AreTurns wish moments start last turns
        → IsBetween wish moments start last target → (g s : ℕ)
        → after_ops (map op_of turns) target g s ≡ wish (start_of moments last) g s }
{}

/// The same over a history: what the operations of a batch leave of a target that is between is
/// between, also where they were cut off, and all of them leave what is wanted at the greatest
/// boundary up to the batch's end. It does nothing.
pub fn law_target()
    ensures fronts { (history : List Stamped) (clock place provisioner most end : ℕ)
        (ops : List TargetOp) (target : ℕ → ℕ → Bool)
        → IsBatch history clock place provisioner most ops end
        → IsBetween (wish_of history clock provisioner) (log_moments history clock)
        (start_of (log_moments history clock) place) end target → (k : ℕ)
        → IsBetween (wish_of history clock provisioner) (log_moments history clock)
        (start_of (log_moments history clock) place) end (after_ops (take k ops) target) }
    ensures all { (history : List Stamped) (clock place provisioner most end : ℕ)
        (ops : List TargetOp) (target : ℕ → ℕ → Bool)
        → IsBatch history clock place provisioner most ops end
        → IsBetween (wish_of history clock provisioner) (log_moments history clock)
        (start_of (log_moments history clock) place) end target → (g s : ℕ)
        → after_ops ops target g s ≡ wish_of history clock provisioner
        (start_of (log_moments history clock) end) g s }
{}

/// Two batches of one question are one. A batch doesn't end before its place, nor behind the last
/// entry, and where it ends at its place it has no operations. It does nothing.
pub fn law_one_batch()
    ensures one { (history : List Stamped) (clock place provisioner most end last : ℕ)
        (ops others : List TargetOp) → IsBatch history clock place provisioner most ops end
        → IsBatch history clock place provisioner most others last → (ops ≡ others) × (end ≡ last) }
    ensures none { (history : List Stamped) (clock place provisioner most : ℕ)
        (ops : List TargetOp) → IsBatch history clock place provisioner most ops place → ops ≡ [] }
    ensures onward { (history : List Stamped) (clock place provisioner most end : ℕ)
        (ops : List TargetOp) → IsBatch history clock place provisioner most ops end
        → place ≤ end }
    ensures inside { (history : List Stamped) (clock place provisioner most end : ℕ)
        (ops : List TargetOp) → IsBatch history clock place provisioner most ops end
        → place ≤ length (log history clock) → end ≤ length (log history clock) }
{}
