//! Lines over a service: what is read is cut at each LF, and each line that isn't skipped is
//! answered by a line; or lines that were read are answered together.
#![tactic(auto)]

mod input;
mod pending;
mod session;
mod stop;
mod together;

pub use input::{LIMIT, PIECE, answer_input, flush, read_some, stop_flushed};
pub use pending::{LineReading, PendingLine};
pub use session::{line_end, reply_line, turn, write_line};
pub use stop::{Stop, stop_of};
pub use together::answer_together;
