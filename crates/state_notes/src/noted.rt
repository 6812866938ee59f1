//! What a value was.

ghost use Rattle.std.specs.Prelude.{◌≡◌};
ghost use Rattle.std.specs.Borrow.{ftrue};

use std::marker::{Model, PhantomData};

/// What a value was when it was noted. Contracts read it as `value`.
pub struct Noted<T> {
    of: PhantomData<T>,
    pub ghost value: { T },
}

impl<T> Model for Noted<T> {
    ghost also_owns = { λ _. ftrue };
}

impl<T> Noted<T> {
    /// What the value is now. It takes no memory.
    pub fn of(value: &T) -> Noted<T>
        ensures { result.value ≡ value.now }
    {
        let _ = value;
        Noted { of: PhantomData }
    }
}

impl<T> Drop for Noted<T> {
    fn drop(self) {
        let Self { of: _ } = self;
    }
}
