// The moments of the log's entries.
ghost use Rattle.std.specs.Prelude.{◌≡◌, IfOk, map};
ghost use Rattle.reg_log.specs.declared.entries.Line.{Line};

use reg_base::Moment;
use reg_log::ChangeLog;
use std::alloc::{AllocError, Global};

/// The moments of a log's entries, in order. The only error is out of memory.
pub fn moments_of(alloc: Global, log: &ChangeLog) -> Result<Vec<Moment>, AllocError>
    ensures { IfOk result (λ moments. moments.items ≡ map (λ (line : Line). line.at) log.now) }
{
    let mut moments = Vec::new(alloc);
    for before in 0..log.last() {
        if let Some(moment) = log.moment_of(before + 1) {
            moments.push(moment)?;
        }
    }
    Ok(moments)
}
