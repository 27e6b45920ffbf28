//! What is told of some things, each with its index.

ghost use Rattle.std.specs.Prelude.{◌≡◌, IfOk};
ghost use Rattle.std.specs.List.{flat_map, enumerate_from};
ghost use Rattle.std.specs.Option.{option_to_list};
ghost use Rattle.ll_fitting.specs.Told.{TellsAs};
ghost use Rattle.ll_fitting.specs.Misfits.{first_of};

use std::alloc::{AllocError, Global};

/// What is told of the first of some things of which something is told.
#[tactic(auto, unfolding(crate::specs::Misfits::first_of))]
pub(crate) fn first_told<T, M, F: Fn(usize, &T) -> Option<M>>(things: &[T], tell: F) -> Option<M>
    requires { F.IsAlwaysCallable tell }
    ensures { (gives : _) → TellsAs F.Fn tell (λ told. told) gives
        → result ≡ first_of gives (enumerate_from 0 things.now) }
{
    for (index, thing) in things.iter().enumerate() {
        if let Some(told) = tell(index, thing) {
            return Some(told);
        }
    }
    None
}

/// All that is told of things, in their order.
pub(crate) fn all_told<T, M: Drop, F: Fn(usize, &T) -> Option<M>>(
    alloc: Global,
    things: &[T],
    tell: F,
) -> Result<Vec<M>, AllocError>
    requires { F.IsAlwaysCallable tell }
    ensures { IfOk result (λ all. (gives : _) → TellsAs F.Fn tell option_to_list gives
        → all.items ≡ flat_map gives (enumerate_from 0 things.now)) }
{
    let mut all = Vec::new(alloc);
    for (index, thing) in things.iter().enumerate() {
        if let Some(told) = tell(index, thing) {
            all.push(told)?;
        }
    }
    Ok(all)
}
