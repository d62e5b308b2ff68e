//! Lists that grow.
ghost use Rattle.std.specs.Prelude.{◌≡◌, ◌≤◌, ◌∷◌, ◌++◌, [], IfOk, OnOk, vec_capacity};

use std::alloc::Global;
use vg_model::Memory;

/// Puts a value behind those of a list.
///
/// # Errors
///
/// [`Memory`] where memory runs out.
pub fn push<X: Drop>(list: &mut Vec<X>, x: X) -> Result<(), Memory>
    ensures { OnOk result (list.new.items ≡ list.old.items ++ x ∷ []) }
{
    match list.push(x) {
        Ok(()) => Ok(()),
        Err(_) => Err(Memory),
    }
}

/// An empty list with room for so many values.
///
/// # Errors
///
/// [`Memory`] where memory runs out.
pub fn room_for<X: Drop>(alloc: Global, count: usize) -> Result<Vec<X>, Memory>
    ensures none { IfOk result (λ list. list.items ≡ []) }
    ensures room { IfOk result (λ list. count ≤ vec_capacity list) }
{
    match Vec::with_capacity(alloc, count) {
        Ok(list) => Ok(list),
        Err(_) => Err(Memory),
    }
}
