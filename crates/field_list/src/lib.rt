//! The fields that the programs offer, in one list: their names, how challenges are written, and how many
//! challenges there are. A task is done over the field with a name by a walk through the list.
#![tactic(auto)]

mod baby_bear;
mod goldilocks;
mod integers_modulo_7;
mod koala_bear;
mod list;
mod offered;
mod table_field;

pub use list::{FieldList, FieldTask, Offered};
pub use offered::{FieldEntry, OfferedField};
pub use table_field::TableField;
