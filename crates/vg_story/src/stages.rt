//! A generation as packets meet it, with the lines of the script that set its routes.

use crate::matches::RouteIndex;
use crate::matches6::RouteIndex6;
use vg_fork::Fork;

/// A generation: its graph, and the prefixes of its routes, each with the line of the script that set it.
#[derive(Drop)]
pub struct Stage {
    pub fork: Fork,
    pub routes: RouteIndex,
    pub routes6: RouteIndex6,
}
