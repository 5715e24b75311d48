// What holds of reports: a law is the clause of a function that does nothing.
ghost use Rattle.std.specs.Prelude.{◌≡◌, List, Result, ℕ};
ghost use Rattle.reg_machine.specs.History.{State};
ghost use Rattle.reg_report.specs.Reported.{Reported};
ghost use Rattle.reg_terms.specs.declared.refusal.Refusal.{Refusal};
ghost use Rattle.reg_words.specs.declared.task.Report.{Report};

/// A report tells one thing. It does nothing.
pub fn law_one_report()
    ensures { (asked : Report) (s : State) (a b : Result (List ℕ) Refusal)
        → Reported asked s a → Reported asked s b → a ≡ b }
{
    reg_access::law_one_list();
}
