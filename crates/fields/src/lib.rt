// The fields of a record of the file: read, and written to a row; and their rules.
#![tactic(auto)]

pub mod bells;
pub mod bytes;
pub mod header;
pub mod layout;
pub mod notes;
pub mod rules;
