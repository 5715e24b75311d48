//! A journal of format 1 as one of format 2. Each record keeps its place in the order, and the
//! payload of its command in format 1 becomes that of the same command in format 2. A payload of
//! format 1 that is no command's becomes the empty payload, which is no command's in format 2: so
//! what is damaged stays damaged, at the same place.
//!
//! `recode_payload` recodes one payload, and gives its command with it, so that a caller judges what
//! it decodes once. `fill_recoded` puts the records on a disk. Whether the commands are ones that a
//! registry accepts is not asked here.
#![tactic(auto)]

mod files;
mod laws;
mod recoding;

pub use files::fill_recoded;
pub use laws::recoded_says_the_same;
pub use recoding::recode_payload;
