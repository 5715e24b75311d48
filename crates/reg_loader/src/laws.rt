// What holds of every load.
ghost use Rattle.std.specs.Prelude.{◌≡◌, [], length, List};
ghost use Rattle.reg_terms.specs.declared.rows.JobRow.{JobRow};
ghost use Rattle.reg_facts.specs.Lists.{Lists};
ghost use Rattle.reg_effect.specs.declared.live.Live.{Live};
ghost use Rattle.reg_loader.specs.declared.tables.TableRow.{TableRow};
ghost use Rattle.reg_loader.specs.Laws.{after, allowed, counted, AreSame};
ghost use Rattle.reg_loader.specs.Plan.{added, plan_of, removed, standing, vetoed, wanted};

/// A law, which does nothing: after what a plan removes and adds the persons in the job's groups
/// are just those that the table wants and no veto forbids.
pub fn law_after()
    ensures { (L : Live) (job : JobRow) (rows : List TableRow) (f : Lists)
        → AreSame (after L (standing job.target f) f (wanted job rows f))
        (allowed L (standing job.target f) f (wanted job rows f)) }
{}

/// A law, which does nothing: a table that wants just the persons that are in the job's groups
/// removes nobody, adds nobody, and meets no veto.
pub fn law_nothing()
    ensures removed { (job : JobRow) (rows : List TableRow) (f : Lists)
        → AreSame (standing job.target f) (wanted job rows f)
        → removed (standing job.target f) (wanted job rows f) ≡ [] }
    ensures added { (L : Live) (job : JobRow) (rows : List TableRow) (f : Lists)
        → AreSame (standing job.target f) (wanted job rows f)
        → added L (standing job.target f) f (wanted job rows f) ≡ [] }
    ensures vetoed { (L : Live) (job : JobRow) (rows : List TableRow) (f : Lists)
        → AreSame (standing job.target f) (wanted job rows f)
        → vetoed L (standing job.target f) f (wanted job rows f) ≡ [] }
{}

/// A law, which does nothing: each record of a table counts once.
pub fn law_counts()
    ensures { (L : Live) (job : JobRow) (rows : List TableRow) (f : Lists)
        → counted (plan_of L job rows f) ≡ length rows }
{}
