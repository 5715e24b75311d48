// A registry from a number.
ghost use Rattle.std.specs.Prelude.{◌≡◌, IfOk};
ghost use Rattle.reg_sample.specs.Played.{summary, summary_text};
ghost use Rattle.reg_run.specs.Once.{Printed};
ghost use Rattle.reg_run.specs.World.{out_of};

use crate::perform::print;
use crate::status::End;
use reg_outside::{Failed, Sink};
use reg_sample::{sample, summary_text};
use reg_words::Size;
use std::alloc::{AllocError, Global};

/// The text of the summary of a sample.
fn sample_text(alloc: Global, seed: u64, size: Size) -> Result<Vec<u8>, AllocError>
    ensures { IfOk result (λ text. text.items ≡ summary_text (summary seed size)) }
{
    let told = sample(alloc, seed, size.number())?;
    summary_text(alloc, &told)
}

/// Prints the summary of a sample.
pub(crate) fn print_sample<K: Sink>(alloc: Global, seed: u64, size: Size, out: &mut K) -> End
    ensures { Printed End.Done (summary_text (summary seed size)) result
        (out_of ⟦<K as Sink>⟧ out.old) (out_of ⟦<K as Sink>⟧ out.new) }
{
    match sample_text(alloc, seed, size) {
        Err(AllocError) => End::Memory,
        Ok(text) => match print(out, &text) {
            Ok(()) => End::Done,
            Err(Failed) => End::Output,
        },
    }
}
