//! The values at the keys of a table, by their types.

ghost use Rattle.std.specs.Prelude.{◌≡◌, Ok, Err, MatchResult, IfOk, option_map};
ghost use Rattle.toml.specs.Data.{get_member};
ghost use Rattle.toml.specs.View.{view, table_view};
ghost use Rattle.oftp_partners.specs.Fields.{IsCode, IsPassword, IsAddress, IsBufferSize, IsCredit};
ghost use Rattle.oftp_partners.specs.Keys.{Answers, mode_of, data_at, text_at, integer_at, flag_at, table_at, code_at, password_at, mode_at, address_at, buffer_size_at, credit_at};

use crate::fault::BookFault;
use crate::field::{Address, BufferSize, Code, Credit, Password};
use oftp_wire::Mode;
use std::alloc::Global;
use toml::{Table, Value};

/// The value at a key, if there is one.
pub(crate) fn found<'a>(table: &'a Table, key: &str) -> Option<&'a Value>
    ensures { option_map (λ v. view v.now) result ≡ get_member key.now (table_view table.now) }
{
    table.get(key)
}

#[tactic(auto, unfolding(crate::specs::Keys::data_at))]
fn value_at<'a>(table: &'a Table, key: &str) -> Result<&'a Value, BookFault>
    ensures { MatchResult result
        (λ v. data_at key.now (table_view table.now) ≡ Ok (view v.now))
        (λ e. data_at key.now (table_view table.now) ≡ Err e) }
{
    found(table, key).ok_or(BookFault::MissingKey)
}

#[tactic(auto, unfolding(crate::specs::Keys::text_at))]
fn text_at<'a>(table: &'a Table, key: &str) -> Result<&'a str, BookFault>
    ensures { MatchResult result
        (λ t. text_at key.now (table_view table.now) ≡ Ok t.now)
        (λ e. text_at key.now (table_view table.now) ≡ Err e) }
{
    value_at(table, key)?.as_str().ok_or(BookFault::WrongKind)
}

#[tactic(auto, unfolding(crate::specs::Keys::integer_at))]
fn integer_at(table: &Table, key: &str) -> Result<i64, BookFault>
    ensures { result ≡ integer_at key.now (table_view table.now) }
{
    value_at(table, key)?
        .as_integer()
        .ok_or(BookFault::WrongKind)
}

/// The value `true` or `false` at a key.
#[tactic(auto, unfolding(crate::specs::Keys::flag_at))]
pub(crate) fn flag_at(table: &Table, key: &str) -> Result<bool, BookFault>
    ensures { result ≡ flag_at key.now (table_view table.now) }
{
    value_at(table, key)?.as_bool().ok_or(BookFault::WrongKind)
}

/// The table at a key.
#[tactic(auto, unfolding(crate::specs::Keys::table_at))]
pub(crate) fn table_at<'a>(table: &'a Table, key: &str) -> Result<&'a Table, BookFault>
    ensures { MatchResult result
        (λ t. table_at key.now (table_view table.now) ≡ Ok (table_view t.now))
        (λ e. table_at key.now (table_view table.now) ≡ Err e) }
{
    value_at(table, key)?.as_table().ok_or(BookFault::WrongKind)
}

/// The code at a key.
#[tactic(auto, unfolding(crate::specs::Keys::code_at))]
pub(crate) fn code_at(alloc: Global, table: &Table, key: &str) -> Result<Code, BookFault>
    ensures value { Answers result (code_at key.now (table_view table.now)) }
    ensures code { IfOk result IsCode }
{
    Code::new(alloc, text_at(table, key)?)
}

/// The password at a key.
#[tactic(auto, unfolding(crate::specs::Keys::password_at))]
pub(crate) fn password_at(alloc: Global, table: &Table, key: &str) -> Result<Password, BookFault>
    ensures value { Answers result (password_at key.now (table_view table.now)) }
    ensures password { IfOk result IsPassword }
{
    Password::new(alloc, text_at(table, key)?)
}

/// The address at a key.
#[tactic(auto, unfolding(crate::specs::Keys::address_at))]
pub(crate) fn address_at(alloc: Global, table: &Table, key: &str) -> Result<Address, BookFault>
    ensures value { Answers result (address_at key.now (table_view table.now)) }
    ensures address { IfOk result IsAddress }
{
    Address::new(alloc, text_at(table, key)?)
}

/// The buffer size at a key.
#[tactic(auto, unfolding(crate::specs::Keys::buffer_size_at))]
pub(crate) fn buffer_at(table: &Table, key: &str) -> Result<BufferSize, BookFault>
    ensures value { result ≡ buffer_size_at key.now (table_view table.now) }
    ensures size { IfOk result IsBufferSize }
{
    BufferSize::new(integer_at(table, key)?)
}

/// The credit at a key.
#[tactic(auto, unfolding(crate::specs::Keys::credit_at))]
pub(crate) fn credit_at(table: &Table, key: &str) -> Result<Credit, BookFault>
    ensures value { result ≡ credit_at key.now (table_view table.now) }
    ensures credit { IfOk result IsCredit }
{
    Credit::new(integer_at(table, key)?)
}

#[tactic(auto, unfolding(crate::specs::Keys::mode_of))]
fn mode_of(text: &str) -> Result<Mode, BookFault>
    ensures { result ≡ mode_of text.now }
{
    match text {
        "S" => Ok(Mode::Send),
        "R" => Ok(Mode::Receive),
        "B" => Ok(Mode::Both),
        _ => Err(BookFault::BadCode),
    }
}

/// The mode at a key.
#[tactic(auto, unfolding(crate::specs::Keys::mode_at))]
pub(crate) fn mode_at(table: &Table, key: &str) -> Result<Mode, BookFault>
    ensures { result ≡ mode_at key.now (table_view table.now) }
{
    mode_of(text_at(table, key)?)
}
