//! What is made of each of some things.

ghost use Rattle.std.specs.Prelude.{IfOk, Ok};
ghost use Rattle.std.specs.Fn.{FnReturnsAt};
ghost use Rattle.std.specs.List.{AllZip};

use std::alloc::{AllocError, Global};

/// What is made of each of some things, in their order.
pub(crate) fn made_of_each<T, U: Drop, F: Fn(&T) -> Result<U, AllocError>>(
    alloc: Global,
    things: &[T],
    make: F,
) -> Result<Vec<U>, AllocError>
    requires { F.IsAlwaysCallable make }
    ensures { IfOk result (λ made.
        AllZip (λ thing told. FnReturnsAt F.Fn make thing (Ok told)) things.now made.items) }
{
    let mut made = Vec::new(alloc);
    for thing in things {
        made.push(make(thing)?)?;
    }
    Ok(made)
}
