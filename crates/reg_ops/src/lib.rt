//! The table of ops: each op's word, code and fields, the forms of fields, and how commands are
//! taken apart and made by it.
#![tactic(auto)]

mod field;
mod forms;
mod laws;
mod making;
mod parts;
mod table;

pub use field::{Field, FieldKind};
pub use forms::{has_form, is_folder_text, is_object_text, key_fits, takes_key};
pub use laws::{law_commands, law_load_word, law_ops};
pub use making::{made, made_command};
pub use parts::{FieldRef, fields_of, kind_of};
pub use table::{
    CommandKind, CommandRow, OpKind, QueryKind, Row, command_coded, command_row, kind_named,
    query_row, row_of,
};
