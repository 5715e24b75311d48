// All lines.
ghost use Rattle.std.specs.Prelude.{◌≡◌, ◌≤◌, ◌<◌, IfOk};
ghost use Rattle.reg_sample.specs.Lines.{count, line};

use crate::loading::loading_line;
use crate::making::making_line;
use crate::reading::reading_line;
use std::alloc::{AllocError, Global};

/// How many lines there are.
pub fn count(size: u64) -> u64
    requires { size ≤ 500 }
    ensures { result ≡ count size }
{
    246 * size + 33
}

/// The line of a number, from 0.
#[tactic(auto, unfolding(crate::specs::Lines::line))]
pub fn line(alloc: Global, seed: u64, size: u64, number: u64) -> Result<Vec<u8>, AllocError>
    requires some { 0 < size }
    requires few { size ≤ 500 }
    requires within { number < count size }
    ensures { IfOk result (λ text. text.items ≡ line seed size number) }
{
    let made = 241 * size + 1;
    if number < made {
        return making_line(alloc, size, number);
    }
    let loaded = 241 * size + 30;
    if number < loaded {
        return loading_line(alloc, seed, size, number - made);
    }
    reading_line(alloc, seed, size, number - loaded)
}
