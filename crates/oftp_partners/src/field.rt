//! Codes, passwords, addresses and numbers, each within its range.

ghost use Rattle.std.specs.Prelude.{◌≡◌, string_bytes, IfOk};
ghost use Rattle.oftp_partners.specs.Fields.{IsCode, IsPassword, IsAddress, IsBufferSize, IsCredit};
ghost use Rattle.oftp_partners.specs.Keys.{Answers, code_of, password_of, address_of, buffer_size_of, credit_of};

use crate::fault::BookFault;
use oftp_wire::{Count, X};
use std::alloc::Global;
use std::marker::Model;

/// The least Data Exchange Buffer size, in octets (RFC 5024, section 5.3.2).
const LEAST_BUFFER: i64 = 128;

/// The greatest Data Exchange Buffer size of the station, in octets.
const GREATEST_BUFFER: i64 = 16_384;

/// The least Credit, in DATA commands.
const LEAST_CREDIT: i64 = 1;

/// The greatest Credit of the station, in DATA commands.
const GREATEST_CREDIT: i64 = 99;

/// An Identification Code: 1 to 25 allowed characters (RFC 5024, section 5.4).
#[derive(Debug, Drop)]
pub struct Code {
    characters: String,
}

impl Model for Code {
    ghost use Rattle.std.specs.Prelude.{ℕ, List, string_bytes};
    ghost use Rattle.oftp_partners.specs.Fields.{IsCode};

    ghost Value = { List ℕ };

    ghost view = { λ x. string_bytes x.characters };

    ghost invariant = { λ x. IsCode (string_bytes x.characters) };
}

impl Code {
    /// The code with these characters.
    ///
    /// # Errors
    ///
    /// [`BookFault::BadCode`] where the text isn't a code, or else [`BookFault::Memory`].
    #[tactic(auto, unfolding(crate::specs::Keys::code_of, crate::specs::Fields::is_code, crate::specs::Fields::is_name))]
    pub fn new(alloc: Global, text: &str) -> Result<Code, BookFault>
        ensures value { Answers result (code_of text.now) }
        ensures code { IfOk result IsCode }
    {
        if text.is_empty() || X::<25>::new(text.as_bytes()).is_none() {
            return Err(BookFault::BadCode);
        }
        Ok(Code {
            characters: String::from_str(alloc, text)?,
        })
    }

    /// The characters.
    pub fn as_str(&self) -> &str
        ensures value { result.now ≡ self.now }
        ensures code { IsCode self.now }
    {
        self.characters.as_str()
    }

    /// The code as a field of a command.
    pub fn field(&self) -> X<'_, 25>
        ensures value { result ≡ self.now }
        ensures code { IsCode self.now }
    {
        X::new(self.characters.as_bytes()).unwrap()
    }
}

/// A password: 0 to 8 allowed characters (RFC 5024, section 5.3.2). It is never printed.
#[derive(Drop)]
pub struct Password {
    password: String,
}

impl Model for Password {
    ghost use Rattle.std.specs.Prelude.{ℕ, List, string_bytes};
    ghost use Rattle.oftp_partners.specs.Fields.{IsPassword};

    ghost Value = { List ℕ };

    ghost view = { λ x. string_bytes x.password };

    ghost invariant = { λ x. IsPassword (string_bytes x.password) };
}

impl Password {
    /// The password with these characters.
    ///
    /// # Errors
    ///
    /// [`BookFault::BadCode`] where the text isn't a password, or else [`BookFault::Memory`].
    #[tactic(auto, unfolding(crate::specs::Keys::password_of, crate::specs::Fields::is_name))]
    pub fn new(alloc: Global, text: &str) -> Result<Password, BookFault>
        ensures value { Answers result (password_of text.now) }
        ensures password { IfOk result IsPassword }
    {
        if X::<8>::new(text.as_bytes()).is_none() {
            return Err(BookFault::BadCode);
        }
        Ok(Password {
            password: String::from_str(alloc, text)?,
        })
    }

    /// The password as a field of a command.
    pub fn field(&self) -> X<'_, 8>
        ensures value { result ≡ self.now }
        ensures password { IsPassword self.now }
    {
        X::new(self.password.as_bytes()).unwrap()
    }
}

/// The address to which the program connects to call a partner: 1 to 255 octets.
#[derive(Debug, Drop)]
pub struct Address {
    address: String,
}

impl Model for Address {
    ghost use Rattle.std.specs.Prelude.{ℕ, List, string_bytes};
    ghost use Rattle.oftp_partners.specs.Fields.{IsAddress};

    ghost Value = { List ℕ };

    ghost view = { λ x. string_bytes x.address };

    ghost invariant = { λ x. IsAddress (string_bytes x.address) };
}

impl Address {
    /// The address with these characters.
    ///
    /// # Errors
    ///
    /// [`BookFault::BadCode`] where the text isn't an address, or else [`BookFault::Memory`].
    #[tactic(auto, unfolding(crate::specs::Keys::address_of, crate::specs::Fields::is_address))]
    pub fn new(alloc: Global, text: &str) -> Result<Address, BookFault>
        ensures value { Answers result (address_of text.now) }
        ensures address { IfOk result IsAddress }
    {
        if text.is_empty() || 255 < text.len() {
            return Err(BookFault::BadCode);
        }
        Ok(Address {
            address: String::from_str(alloc, text)?,
        })
    }

    /// The address as a text.
    pub fn as_str(&self) -> &str
        ensures value { result.now ≡ self.now }
        ensures address { IsAddress self.now }
    {
        self.address.as_str()
    }
}

/// The Data Exchange Buffer size of the station: 128 to 16,384 octets. RFC 5024 allows 99,999 (section 5.3.2).
#[derive(Clone, Copy, Debug, PartialEq, Eq)]
pub struct BufferSize {
    octets: u16,
}

impl Model for BufferSize {
    ghost use Rattle.std.specs.Prelude.{ℕ};
    ghost use Rattle.oftp_partners.specs.Fields.{IsBufferSize};

    ghost Value = { ℕ };

    ghost view = { λ x. x.octets };

    ghost invariant = { λ x. IsBufferSize x.octets };

    ghost inverse = { λ n. record { octets = n } };
}

impl BufferSize {
    /// The size of this number of octets.
    ///
    /// # Errors
    ///
    /// [`BookFault::BadNumber`] where the number is out of range.
    #[tactic(auto, unfolding(crate::specs::Keys::buffer_size_of, crate::specs::Keys::number_within))]
    pub fn new(octets: i64) -> Result<BufferSize, BookFault>
        ensures value { result ≡ buffer_size_of octets }
        ensures size { IfOk result IsBufferSize }
    {
        if octets < LEAST_BUFFER || GREATEST_BUFFER < octets {
            return Err(BookFault::BadNumber);
        }
        Ok(BufferSize {
            octets: octets as u16,
        })
    }

    /// The size in octets.
    pub fn get(self) -> u16
        ensures value { result ≡ self }
        ensures size { IsBufferSize self }
    {
        self.octets
    }

    /// The size as a field of a command.
    pub fn field(self) -> Count<5>
        ensures value { result ≡ self }
        ensures size { IsBufferSize self }
    {
        Count::new(u64::from(self.octets))
    }
}

/// The Credit that the station offers: 1 to 99 DATA commands. RFC 5024 allows 999 (section 5.3.2).
#[derive(Clone, Copy, Debug, PartialEq, Eq)]
pub struct Credit {
    commands: u8,
}

impl Model for Credit {
    ghost use Rattle.std.specs.Prelude.{ℕ};
    ghost use Rattle.oftp_partners.specs.Fields.{IsCredit};

    ghost Value = { ℕ };

    ghost view = { λ x. x.commands };

    ghost invariant = { λ x. IsCredit x.commands };

    ghost inverse = { λ n. record { commands = n } };
}

impl Credit {
    /// The credit of this number of DATA commands.
    ///
    /// # Errors
    ///
    /// [`BookFault::BadNumber`] where the number is out of range.
    #[tactic(auto, unfolding(crate::specs::Keys::credit_of, crate::specs::Keys::number_within))]
    pub fn new(commands: i64) -> Result<Credit, BookFault>
        ensures value { result ≡ credit_of commands }
        ensures credit { IfOk result IsCredit }
    {
        if commands < LEAST_CREDIT || GREATEST_CREDIT < commands {
            return Err(BookFault::BadNumber);
        }
        Ok(Credit {
            commands: commands as u8,
        })
    }

    /// The credit in DATA commands.
    pub fn get(self) -> u8
        ensures value { result ≡ self }
        ensures credit { IsCredit self }
    {
        self.commands
    }

    /// The credit as a field of a command.
    pub fn field(self) -> Count<3>
        ensures value { result ≡ self }
        ensures credit { IsCredit self }
    {
        Count::new(u64::from(self.commands))
    }
}
