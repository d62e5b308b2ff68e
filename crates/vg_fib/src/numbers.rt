//! Numbers of routes, for both kinds of prefixes: each route has a slot, which is empty once the route is removed, and its number
//! is the slot's place and one more.
ghost use Rattle.std.specs.Prelude.{◌≡◌, ◌++◌, map, OnOk, Some};

use std::alloc::AllocError;
use vg_model::limits::MOST_ROUTES;

/// With more slots than this, all routes are put in again, without empty slots.
pub(crate) const MOST_SLOTS: usize = 2 * MOST_ROUTES;

/// Where more routes than this are removed at once, all routes are put in again, as this costs less then.
pub(crate) const MOST_REMOVED: usize = 16;

// How the numbers of the addresses of a prefix change.
#[derive(Clone, Copy)]
pub(crate) enum Change {
    // They have this number from now on, unless they have that of a longer route.
    Comes(u16),
    // The route of the first number is gone, and the second takes its addresses over.
    Goes { gone: u16, heir: u16 },
}

// Adds a slot for each of these routes.
pub(crate) fn add_slots<R: Copy + Drop>(
    slots: &mut Vec<Option<R>>,
    routes: &[R],
) -> Result<(), AllocError>
    ensures { OnOk result (slots.new.items ≡ slots.old.items ++ map (λ route. Some route) routes.now) }
{
    slots.reserve(routes.len())?;
    for route in routes {
        slots.push(Some(*route))?;
    }
    Ok(())
}
