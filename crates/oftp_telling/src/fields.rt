//! The fields of commands: their names, their places and their forms.

ghost use Rattle.std.specs.Prelude.{◌≡◌, take, drop};
ghost use Rattle.oftp_codec.specs.Form.{size};
ghost use Rattle.oftp_wire.specs.Octets.{part};
ghost use Rattle.oftp_telling.specs.Fields.{form_seen};

/// Which octets a field may have.
#[derive(Clone, Copy, Debug, Drop, PartialEq, Eq)]
pub enum FieldForm {
    /// These octets.
    Word(&'static [u8]),
    /// Y or N.
    Flag,
    /// S, R or B.
    Mode,
    /// F, V, U or T.
    Format,
    /// So many octets: allowed characters, and then spaces.
    Name(usize),
    /// So many digits.
    Digits(usize),
    /// So many digits, which are 0 where the format has no records.
    DigitsIf(bool, usize),
    /// So many octets of any content, which mean nothing.
    Reserved(usize),
    /// A carriage return, 0D or 8D.
    Return,
    /// So many octets of any content.
    Any(usize),
    /// So many octets of UTF-8.
    Utf8(usize),
}

/// A field of a command.
#[derive(Clone, Copy, Debug, Drop, PartialEq, Eq)]
pub struct NamedField {
    /// What RFC 5024 calls it.
    pub name: &'static str,
    /// Its offset in the command, in octets from 0.
    pub at: usize,
    /// Which octets it may have.
    pub form: FieldForm,
}

/// The fields of a kind, from left to right.
#[derive(Drop)]
pub struct FieldSheet {
    /// The fields.
    pub fields: Vec<NamedField>,
    /// Where the last one ends, in octets from the beginning of the command.
    pub end: usize,
}

impl FieldForm {
    /// How many octets a field of this form has.
    pub fn size(self) -> usize
        ensures { result ≡ size (form_seen self) }
    {
        match self {
            FieldForm::Word(word) => word.len(),
            FieldForm::Flag | FieldForm::Mode | FieldForm::Format | FieldForm::Return => 1,
            FieldForm::Name(len)
            | FieldForm::Digits(len)
            | FieldForm::DigitsIf(_, len)
            | FieldForm::Reserved(len)
            | FieldForm::Any(len)
            | FieldForm::Utf8(len) => len,
        }
    }
}

/// The octets from an offset on.
pub fn rest_of(octets: &[u8], at: usize) -> &[u8]
    ensures { result.now ≡ drop at octets.now }
{
    match octets.get(at..) {
        Some(rest) => rest,
        None => &[],
    }
}

/// The first octets: at most so many, and no more than there are.
pub fn front_of(octets: &[u8], len: usize) -> &[u8]
    ensures { result.now ≡ take len octets.now }
{
    if octets.len() < len {
        octets
    } else {
        &octets[..len]
    }
}

/// The octets from an offset on: at most so many, and no more than there are.
pub fn part_of(octets: &[u8], at: usize, len: usize) -> &[u8]
    ensures { result.now ≡ part at len octets.now }
{
    front_of(rest_of(octets, at), len)
}

impl NamedField {
    /// The octets that it has in a command, or as many of them as there are.
    pub fn octets<'f>(&self, frame: &'f [u8]) -> &'f [u8]
        ensures { result.now ≡ part self.now.at (size (form_seen self.now.form)) frame.now }
    {
        part_of(frame, self.at, self.form.size())
    }
}
