//! Lists of rows that are found by their keys.
#![tactic(auto)]

mod group_rows;
mod linked;
mod linked_row;
mod linked_table;
mod row;
mod spot;
mod stamped;
mod table;

pub use group_rows::GroupRows;
pub use linked_row::LinkedRow;
pub use linked_table::LinkedTable;
pub use row::Row;
pub use table::Table;
