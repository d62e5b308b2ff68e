//! The lines of a script that set routes.
ghost use Rattle.std.specs.Prelude.{◌≡◌, [], ◌∷◌, IfOk, OnOk};
ghost use Rattle.vg_ways.specs.Lines.{lined as lined_by};
ghost use Rattle.vg_ways.specs.LinesView.{line_in, line6_in, HasLine, HasLine6, AreAfter, AreLinesOf};

use std::alloc::{AllocError, Global};
use std::collections::BTreeMap;
use vg_model::{Edit, EditLine, Edits, Prefix, Prefix6, RouteTo};
use vg_script::Script;
use vg_story::{RouteIndex, RouteIndex6};

/// The line on which the route of each prefix was set last.
#[derive(Drop)]
pub(crate) struct RouteLines {
    alloc: Global,
    lines: BTreeMap<(u32, u8), u32>,
    lines6: BTreeMap<(u128, u8), u32>,
}

impl RouteLines {
    // No route was set.
    fn new(alloc: Global) -> RouteLines
        ensures four { (prefix : Prefix) → line_in result prefix ≡ 0 }
        ensures six { (prefix : Prefix6) → line6_in result prefix ≡ 0 }
    {
        RouteLines {
            alloc,
            lines: BTreeMap::new(alloc),
            lines6: BTreeMap::new(alloc),
        }
    }

    // Those of the first generation of a script.
    pub(crate) fn first(alloc: Global, script: &Script) -> Result<RouteLines, AllocError>
        ensures { IfOk result (AreLinesOf script.now 0) }
    {
        let mut lines = RouteLines::new(alloc);
        lines.put_all(&script.start)?;
        Ok(lines)
    }

    // The route of a prefix was set in this line.
    fn put_line(&mut self, prefix: Prefix, line: u32) -> Result<(), AllocError>
        ensures { OnOk result (HasLine prefix line self.old self.new) }
    {
        self.lines.insert((prefix.addr, prefix.len), line)?;
        Ok(())
    }

    // The same for IPv6.
    fn put_line6(&mut self, prefix: Prefix6, line: u32) -> Result<(), AllocError>
        ensures { OnOk result (HasLine6 prefix line self.old self.new) }
    {
        self.lines6.insert((prefix.addr, prefix.len), line)?;
        Ok(())
    }

    // After an edit.
    fn put(&mut self, edit: &EditLine) -> Result<(), AllocError>
        ensures { OnOk result (AreAfter (edit.now ∷ []) self.old self.new) }
    {
        match &edit.edit {
            Edit::Route { prefix, .. } => self.put_line(*prefix, edit.line),
            Edit::Route6 { prefix, .. } => self.put_line6(*prefix, edit.line),
            Edit::Interface { .. }
            | Edit::Node { .. }
            | Edit::Arc { .. }
            | Edit::Adjacency { .. }
            | Edit::Unroute { .. }
            | Edit::Unroute6 { .. } => Ok(()),
        }
    }

    // After these edits.
    pub(crate) fn put_all(&mut self, edits: &Edits) -> Result<(), AllocError>
        ensures { OnOk result (AreAfter edits.now self.old self.new) }
    {
        for edit in edits.as_slice() {
            self.put(edit)?;
        }
        Ok(())
    }

    // The line of a prefix; 0 where no line set it.
    fn line(&self, prefix: Prefix) -> u32
        ensures { result ≡ line_in self.now prefix }
    {
        match self.lines.get(&(prefix.addr, prefix.len)) {
            Some(line) => *line,
            None => 0,
        }
    }

    // The same for IPv6.
    fn line6(&self, prefix: Prefix6) -> u32
        ensures { result ≡ line6_in self.now prefix }
    {
        match self.lines6.get(&(prefix.addr, prefix.len)) {
            Some(line) => *line,
            None => 0,
        }
    }

    // The prefixes of these routes, each with its line.
    fn of(&self, routes: &[(Prefix, RouteTo)]) -> Result<Vec<(Prefix, u32)>, AllocError>
        ensures { IfOk result (λ lined. lined.items ≡ lined_by (line_in self.now) routes.now) }
    {
        let mut lined = Vec::with_capacity(self.alloc, routes.len())?;
        for route in routes {
            lined.push((route.0, self.line(route.0)))?;
        }
        Ok(lined)
    }

    // The same for IPv6.
    fn of6(&self, routes: &[(Prefix6, RouteTo)]) -> Result<Vec<(Prefix6, u32)>, AllocError>
        ensures { IfOk result (λ lined. lined.items ≡ lined_by (line6_in self.now) routes.now) }
    {
        let mut lined = Vec::with_capacity(self.alloc, routes.len())?;
        for route in routes {
            lined.push((route.0, self.line6(route.0)))?;
        }
        Ok(lined)
    }

    /// The prefixes of these routes, each with its line, in a form that is searched.
    pub(crate) fn index(&self, routes: &[(Prefix, RouteTo)]) -> Result<RouteIndex, AllocError>
        ensures { IfOk result (λ index. index ≡ lined_by (line_in self.now) routes.now) }
    {
        let lined = self.of(routes)?;
        RouteIndex::of(self.alloc, lined)
    }

    /// The same for IPv6.
    pub(crate) fn index6(&self, routes: &[(Prefix6, RouteTo)]) -> Result<RouteIndex6, AllocError>
        ensures { IfOk result (λ index. index ≡ lined_by (line6_in self.now) routes.now) }
    {
        let lined = self.of6(routes)?;
        RouteIndex6::of(self.alloc, lined)
    }
}
