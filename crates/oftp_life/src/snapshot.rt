//! What a value was. It exists only in proofs.

ghost use Rattle.std.specs.Prelude.{◌≡◌};
ghost use Rattle.std.specs.Borrow.{ftrue};

use std::marker::{Model, PhantomData};

/// What a value was at some time. It takes no memory.
#[derive(Drop)]
pub struct Snapshot<T> {
    of: PhantomData<T>,
    pub ghost value: { T } by { T.code },
}

impl<T> Model for Snapshot<T> {
    ghost also_owns = { λ _. ftrue };
}

impl<T> Snapshot<T> {
    // What this value is now.
    pub(crate) fn of(_value: &T) -> Snapshot<T>
        ensures { result.value ≡ _value.now }
    {
        Snapshot { of: PhantomData }
    }
}
