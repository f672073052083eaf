//! The name and the time of a file, as words.

ghost use Rattle.std.specs.Prelude.{◌≡◌, None, IfSome};
ghost use Rattle.std.specs.Str.{IsUtf8};
ghost use Rattle.oftp_channel.specs.InsideAsked.{IsStampOf};

use crate::fields::text_in;

// The dataset name and the date and time stamps of a file.
#[derive(Clone, Copy, Drop)]
pub(crate) struct Stamp<'a> {
    pub(crate) dataset: &'a str,
    pub(crate) date: &'a str,
    pub(crate) time: &'a str,
}

// The stamp that three words spell.
pub(crate) fn stamp_in<'a>(dataset: &'a [u8], date: &'a [u8], time: &'a [u8]) -> Option<Stamp<'a>>
    ensures some { IfSome result (IsStampOf dataset.now date.now time.now) }
    ensures none { result ≡ None → IsUtf8 dataset.now → IsUtf8 date.now → IsUtf8 time.now → ⊥ }
{
    Some(Stamp {
        dataset: text_in(dataset)?,
        date: text_in(date)?,
        time: text_in(time)?,
    })
}
