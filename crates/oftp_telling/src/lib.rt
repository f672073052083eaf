//! What a trace and `show` tell of commands. It is each field by its name in RFC 5024 (section 5.3). Of faulty octets it is which field is
//! at fault, what it has and what it may have.
//!
//! The places of the fields are those of oftp_codec's tables (`specs/Names.antt`), so there is no second list of them. A password is never
//! told, and no content of a file.
#![tactic(auto)]

mod counting;
mod faults;
mod fields;
mod kind;
mod shown;
mod tables;
mod telling;

pub use counting::{DataCount, Gathered, Sender, gather};
pub use faults::{
    MOST_TOLD, write_end_spot, write_evidence, write_field_evidence, write_field_spot, write_rule,
};
pub use fields::{FieldForm, FieldSheet, NamedField, front_of, part_of, rest_of};
pub use kind::CommandKind;
pub use tables::fields_of;
pub use telling::{Telling, kind_in, tell};
