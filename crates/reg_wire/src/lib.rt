//! Stamped commands as bytes, the payloads of the journal, in format 2. Each command that
//! `is_writable` has one payload, and each payload is of one command. A payload has the moment
//! (eight bytes, the least first), the text of who gave the command, a byte 0 where it has no key,
//! or 1 and the key's text, the code of its op (one byte) and the op's fields in order, and nothing
//! else. A text is its length (two bytes, the least first) and its bytes. A moment that may be left
//! out is 0, or 1 and the moment. The kind of a composite is 1 for an intersection, 2 for a
//! complement and 3 for a union. Of an inherit the kind of objects is 1 for folders, 2 for groups
//! and 3 for definitions, and the scope 1 for those directly in the folder and 2 for those at any
//! depth below it. A privilege is its code. Of a definition the owners are one byte, the sum of 1
//! for folders, 2 for groups and 4 for subjects, and not 0; what holds is 1, and what doesn't 0;
//! the kind of its values is 1 for markers, 2 for integers, 3 for texts and 4 for timestamps. A
//! value is 1 and a whole number (eight bytes, the least first, in two's complement), or 2 and a
//! text of at most 255 bytes. The lists of a load are each a count (four bytes, the least first)
//! and so many items: a name is its text, and a row its group's text and its person's.
//!
//! In format 1, which `decode_old` reads and nothing writes, a payload has no byte behind who gave
//! the command and none of the dates of a grant, no composite is a union and no grant has a date;
//! all else is the same.
#![tactic(auto)]

mod decoding;
mod encoding;
mod fault;
mod fields;
mod laws;
mod load_lists;
mod old_decoding;
mod reading;
mod writable;

pub use decoding::decode;
pub use encoding::{command_bytes, encode};
pub use laws::{
    format_1_leaves_dates_out, old_payload_reads_back, payload_is_short, payload_reads_back,
    read_is_old_payload, read_is_payload, same_bytes_same_command,
};
pub use old_decoding::{dates_left_out, decode_old};
pub use writable::is_writable;
