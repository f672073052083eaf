//! The letters of formats.

/// The letter of a virtual file's format.
#[derive(Clone, Copy, Debug, PartialEq, Eq)]
pub(crate) enum Format {
    Fixed,
    Variable,
    Unstructured,
    Text,
}
