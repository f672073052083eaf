//! A detail of an entry, as the listing and the reports show it.

ghost use Rattle.std.specs.Prelude.{◌≡◌, ◌++◌, ◌∷◌, [], IfOk, OnOk};
ghost use Rattle.csv.specs.Records.{fields_of, partial_of};
ghost use Rattle.serde_json.specs.View.{view};
ghost use Rattle.oftp_listing.specs.Details.{data_of, text_of};

use csv::ByteRecord;
use serde_json::Value;
use std::alloc::{AllocError, Global};

/// A detail of an entry.
#[derive(Clone, Copy)]
pub(crate) enum Detail<'a> {
    /// A text.
    Text(&'a str),
    /// A number.
    Count(u64),
    /// Yes or no.
    Flag(bool),
}

impl Detail<'_> {
    /// Its value in a JSON object.
    ///
    /// # Errors
    ///
    /// Out of memory.
    pub(crate) fn to_value(self, alloc: Global) -> Result<Value, AllocError>
        ensures { IfOk result (λ value. view value ≡ data_of self.entry) }
    {
        match self {
            Detail::Text(text) => Value::try_from_str(alloc, text),
            Detail::Count(count) => Ok(Value::from(count)),
            Detail::Flag(flag) => Ok(Value::from(flag)),
        }
    }

    /// Appends it to the fields of a report's line.
    ///
    /// # Errors
    ///
    /// Out of memory.
    pub(crate) fn add_to(self, alloc: Global, fields: &mut ByteRecord) -> Result<(), AllocError>
        ensures fields { partial_of fields.old ≡ [] → OnOk result (fields_of fields.new ≡ fields_of fields.old ++ text_of self.entry ∷ []) }
        ensures whole { OnOk result (partial_of fields.new ≡ []) }
    {
        match self {
            Detail::Text(text) => fields.push_field(text.as_bytes()),
            Detail::Count(count) => fields.push_field(count.to_string(alloc)?.as_bytes()),
            Detail::Flag(true) => fields.push_field(b"yes"),
            Detail::Flag(false) => fields.push_field(b"no"),
        }
    }
}
