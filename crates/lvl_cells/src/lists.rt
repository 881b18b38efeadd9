//! Additions to a list.
ghost use Rattle.std.specs.Prelude.{◌≡◌, ◌<◌, ◌++◌, ◌∷◌, [], OnOk, OnErr, vec_len, vec_capacity};

use std::alloc::AllocError;

/// Appends an item. If there is no memory for it, the item is dropped, and the list stays as it was.
pub(crate) fn push_item<T: Drop>(list: &mut Vec<T>, item: T) -> Result<(), AllocError>
    ensures added { OnOk result (list.new.items ≡ list.old.items ++ item ∷ []) }
    ensures kept { OnErr result (list.new.items ≡ list.old.items) }
{
    list.push(item)?;
    Ok(())
}

/// Takes room for as many more items as the list has, or for the first one alone.
#[cold]
#[inline(never)]
fn grow_lean<T>(list: &mut Vec<T>) -> Result<(), AllocError>
    ensures items { list.new.items ≡ list.old.items }
    ensures room { OnOk result (vec_len list.new < vec_capacity list.new) }
{
    list.reserve_exact(list.len().max(1))
}

/// Takes room for as many more items as the list has, or for the first one alone, if it is full.
#[inline(always)]
fn reserve_lean<T>(list: &mut Vec<T>) -> Result<(), AllocError>
    ensures items { list.new.items ≡ list.old.items }
    ensures room { OnOk result (vec_len list.new < vec_capacity list.new) }
{
    if list.len() < list.capacity() {
        return Ok(());
    }
    grow_lean(list)
}

/// Appends an item. Takes room for exactly one, two, four items and so on, since most cells have few
/// shapes and references or many. If there is no memory for it, the item is dropped, and the list
/// stays as it was.
#[inline(always)]
pub(crate) fn push_lean<T: Drop>(list: &mut Vec<T>, item: T) -> Result<(), AllocError>
    ensures added { OnOk result (list.new.items ≡ list.old.items ++ item ∷ []) }
    ensures kept { OnErr result (list.new.items ≡ list.old.items) }
{
    reserve_lean(list)?;
    list.push_reserved(item);
    Ok(())
}
