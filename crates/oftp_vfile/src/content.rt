//! The rows of virtual files.
ghost use Rattle.std.specs.Prelude.{◌≡◌, ◌==◌, ℕ, List, length};

use std::marker::Model;

/// A row of a virtual file: a record (formats F and V), or a block of octets (U and T). Contracts see it as the list of its octets.
#[derive(Drop)]
pub struct Row {
    octets: Vec<u8>,
}

impl Model for Row {
    ghost Value = { List ℕ };

    ghost view = { λ r. r.octets.items };
}

impl Row {
    /// A row with these octets. It allocates nothing.
    pub fn new(octets: Vec<u8>) -> Row
        ensures { result ≡ octets.items }
    {
        Row { octets }
    }

    /// The octets.
    pub fn octets(&self) -> &[u8]
        ensures { result.now ≡ self.now }
    {
        self.octets.as_slice()
    }

    /// The octets, without a copy.
    pub fn into_octets(self) -> Vec<u8>
        ensures { result.items ≡ self }
    {
        self.octets
    }

    /// The number of octets.
    pub fn len(&self) -> usize
        ensures { result ≡ length self.now }
    {
        self.octets.len()
    }

    /// Whether it has no octet.
    pub fn is_empty(&self) -> bool
        ensures { result ≡ (length self.now == 0) }
    {
        self.octets.is_empty()
    }
}

/// The rows of a virtual file, in order. Contracts see them as a list of lists of octets.
#[derive(Drop)]
pub struct Rows {
    rows: Vec<Row>,
}

impl Model for Rows {
    ghost Value = { List (List ℕ) };

    ghost view = { λ r. r.rows.items };
}

impl Rows {
    /// These rows. It allocates nothing.
    pub fn new(rows: Vec<Row>) -> Rows
        ensures { result ≡ rows.items }
    {
        Rows { rows }
    }

    /// The rows as a borrowed slice.
    pub fn as_slice(&self) -> &[Row]
        ensures { result.now ≡ self.now }
    {
        self.rows.as_slice()
    }

    /// The rows, without a copy.
    pub fn into_vec(self) -> Vec<Row>
        ensures { result.items ≡ self }
    {
        self.rows
    }

    /// The number of rows.
    pub fn len(&self) -> usize
        ensures { result ≡ length self.now }
    {
        self.rows.len()
    }

    /// Whether there is no row.
    pub fn is_empty(&self) -> bool
        ensures { result ≡ (length self.now == 0) }
    {
        self.rows.is_empty()
    }
}
