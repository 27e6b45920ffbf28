//! Lists of values that are read one after another.

ghost use Rattle.std.specs.Prelude.{ℕ, Result, [], map};
ghost use Rattle.serde_json.specs.Data.{Data};
ghost use Rattle.serde_json.specs.View.{view, items_view};
ghost use Rattle.ll_lines.specs.declared.fault.Cause as cause;
ghost use Rattle.ll_lines.specs.Readers.{Gives};
ghost use Rattle.ll_values.specs.Lists.{fold_items, list_at, one_more, ReadsAs};

use crate::members::items_of;
use ll_lines::Cause;
use serde_json::Value;
use std::alloc::Global;

/// How contracts see what is read.
pub trait Sight<T> {
    ghost Seen: { Type 0 };

    ghost seen: { T → Seen };
}

/// As it is.
struct AsItIs;

impl<T> Sight<T> for AsItIs {
    ghost Seen = { T };

    ghost seen = { λ item. item };
}

/// Takes in what is read from one value more.
fn take<S: Sight<T>, T: Drop, F: Fn(&[T], &Value) -> Result<T, Cause>>(
    read: &F,
    all: &mut Vec<T>,
    value: &Value,
) -> Result<(), Cause>
    requires { F.IsAlwaysCallable read.now }
    ensures { (reads : ℕ → Data → Result S.Seen cause.Cause)
        → ReadsAs F.Fn read.now S.seen reads
        → Gives (λ _. map S.seen all.new.items) result
        (one_more reads (map S.seen all.old.items) (view value.now)) }
{
    let one = read(all, value)?;
    all.push(one)?;
    Ok(())
}

/// What is read from each of some values, each behind those before it.
pub fn all_in<S: Sight<T>, T: Drop, F: Fn(&[T], &Value) -> Result<T, Cause>>(
    alloc: Global,
    values: &[Value],
    read: F,
) -> Result<Vec<T>, Cause>
    requires { F.IsAlwaysCallable read }
    ensures { (reads : ℕ → Data → Result S.Seen cause.Cause)
        → ReadsAs F.Fn read S.seen reads
        → Gives (λ all. map S.seen all.items) result
        (fold_items (one_more reads) [] (items_view values.now)) }
{
    let mut all = Vec::new(alloc);
    for value in values {
        take::<S, T, F>(&read, &mut all, value)?;
    }
    Ok(all)
}

/// What is read from the values of a member that is a list, where it is seen as it is.
pub fn list_of<T: Drop, F: Fn(&[T], &Value) -> Result<T, Cause>>(
    alloc: Global,
    value: &Value,
    name: &str,
    read: F,
) -> Result<Vec<T>, Cause>
    requires { F.IsAlwaysCallable read }
    ensures { (reads : ℕ → Data → Result T cause.Cause) → ReadsAs F.Fn read (λ item. item) reads
        → Gives (λ all. all.items) result (list_at name.now reads (view value.now)) }
{
    let values = items_of(value, name)?;
    all_in::<AsItIs, T, F>(alloc, values, read)
}
