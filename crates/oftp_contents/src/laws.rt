//! The theorems about contents: what was written is what is read, and what was hidden is played alike.

ghost use Rattle.std.specs.Prelude.{◌≡◌, ◌==◌, ◌||◌, ℕ, List, [], true, None, Some};
ghost use Rattle.std.specs.List.{flat_map};
ghost use Rattle.oftp_contents.specs.Books.{parts_of};
ghost use Rattle.oftp_contents.specs.Escapes.{Character, TellsNothing, characters_in, hidden_all, hidden_character, hidden_string};
ghost use Rattle.oftp_contents.specs.Fields.{IsLaid, Laid, fields_octets};
ghost use Rattle.oftp_contents.specs.Passwords.{IsTakenAlike, hidden_octet, shown_octet};
ghost use Rattle.oftp_contents.specs.Programs.{ProgramIsRead};
ghost use Rattle.oftp_wire.specs.Octets.{is_allowed};

/// Octets are the encoding of one list of fields. The function does nothing; its contract is the theorem.
pub fn one_content()
    ensures { (fields others : Laid) → IsLaid fields → IsLaid others → fields_octets fields ≡ fields_octets others → fields ≡ others }
{}

/// Where a password belongs, each octet that a record has of it is played as one that a session takes in the same way. `own` is the octet that
/// belongs there. The function does nothing; its contract is the theorem.
pub fn hidden_is_taken_alike()
    ensures { (own octet : ℕ) → (own == 32) || is_allowed own ≡ true → IsTakenAlike own octet (shown_octet (Some own) (hidden_octet (Some own) octet)) }
{}

/// The parts of the text of a book, one behind the other, are the text. So each octet that isn't one of a password stays in a record. The function does
/// nothing; its contract is the theorem.
pub fn book_is_its_parts()
    ensures { (book : List ℕ) → flat_map (λ part. part.octets) (parts_of book) ≡ book }
{}

/// The characters of a string in double quotes, one behind the other, are the string. The function does nothing; its contract is the theorem.
pub fn string_is_its_characters()
    ensures { (octets : List ℕ) → flat_map (λ character. character.octets) (characters_in octets) ≡ octets }
{}

/// Each character of a string in double quotes is hidden by itself: a record has X for one that a password may have, and any other one as it is written.
/// The function does nothing; its contract is the theorem.
pub fn each_character_is_hidden()
    ensures { (octets : List ℕ) → hidden_string octets ≡ flat_map hidden_character (characters_in octets) }
{}

/// What a record has of a character of a password is X, or tells nothing of a character that a password may have: in double quotes (`character`) and in
/// single ones (`literal`). The function does nothing; its contract is the theorem.
pub fn hidden_characters_tell_nothing()
    ensures character { (c : Character) → TellsNothing (hidden_character c) c.spelled }
    ensures literal { (octets : List ℕ) → TellsNothing (hidden_all [] octets) None }
{}

/// The version and the sum of the sources that an opening was written with are those that are read of it, if the version has no line end. The function
/// does nothing; its contract is the theorem.
pub fn program_is_read()
    ensures { ProgramIsRead }
{}
