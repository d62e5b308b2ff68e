//! The kernel's router of a script's start graph, as commands `ip` of iproute2 for a shell. What they can't say is a line of a comment.
//! A neighbor has no IP address in a script, so each gets two by its number, which leave no interface: 198.18.0.1 and on, of the block for
//! measurements of routers (RFC 2544, appendix C.2.2), and fe80::1 and on (RFC 4291, section 2.5.6).
ghost use Rattle.std.specs.Prelude.{◌≡◌, ◌<◌, ◌++◌, length, flat_map, option_map, IfOk, OnOk};
ghost use Rattle.vg_model.specs.Graph.{with_routes};
ghost use Rattle.vg_diff.specs.Linux as specs;

use crate::addresses::{put_address, put_group, put_mac, put_prefix, put_prefix6};
use crate::reach::{Version, are_closed, interface_of, is_sayable, is_sayable_over};
use crate::texts::{put, put_decimal};
use std::alloc::{AllocError, Global};
use vg_graph::Graph;
use vg_model::{Adjacency, Edit, EditLine, Interface, Mac, Name, Prefix, Prefix6, RouteTo};
use vg_plan::{Master, Plan};
use vg_script::{Block, Script};

// Appends a line.
fn put_line(out: &mut Vec<u8>, text: &[u8]) -> Result<(), AllocError>
    ensures { OnOk result (out.new.items ≡ out.old.items ++ specs.line_text text.now) }
{
    put(out, text)?;
    put(out, b"\n")
}

// Appends the comment on the setting that lets the kernel forward at all.
#[tactic(auto, unfolding(crate::specs::Linux::forwarding_line))]
fn put_forwarding(out: &mut Vec<u8>) -> Result<(), AllocError>
    ensures { OnOk result (out.new.items ≡ out.old.items ++ specs.forwarding_line) }
{
    put_line(
        out,
        b"# sysctl -w net.ipv4.ip_forward=1 net.ipv6.conf.all.forwarding=1",
    )
}

// Appends the comment on what the kernel answers.
#[tactic(auto, unfolding(crate::specs::Linux::answers_line))]
fn put_answers(out: &mut Vec<u8>) -> Result<(), AllocError>
    ensures { OnOk result (out.new.items ≡ out.old.items ++ specs.answers_line) }
{
    put_line(
        out,
        b"# the kernel's router answers a packet whose time to live expires by an ICMP error of its own",
    )
}

// Appends the comment on addresses that the kernel forwards nothing to.
#[tactic(auto, unfolding(crate::specs::Linux::addresses_line))]
fn put_addresses(out: &mut Vec<u8>) -> Result<(), AllocError>
    ensures { OnOk result (out.new.items ≡ out.old.items ++ specs.addresses_line) }
{
    put_line(
        out,
        b"# it forwards nothing to addresses as 127.0.0.1, 224.0.0.1 and 255.255.255.255, whatever the routes say",
    )
}

// Appends the comment on how the kernel chooses among several neighbors.
#[tactic(auto, unfolding(crate::specs::Linux::choice_line))]
fn put_choice(out: &mut Vec<u8>) -> Result<(), AllocError>
    ensures { OnOk result (out.new.items ≡ out.old.items ++ specs.choice_line) }
{
    put_line(
        out,
        b"# it chooses among several neighbors of a route by a hash of its own",
    )
}

// Appends the first lines, which are comments: the setting that lets the kernel forward at all, and what it does besides.
fn put_head(out: &mut Vec<u8>) -> Result<(), AllocError>
    ensures { OnOk result (out.new.items ≡ out.old.items ++ specs.head) }
{
    put_forwarding(out)?;
    put_answers(out)?;
    put_addresses(out)?;
    put_choice(out)
}

// Appends a line of a comment on something of this name.
fn put_remark(out: &mut Vec<u8>, name: &[u8], remark: &[u8]) -> Result<(), AllocError>
    ensures { OnOk result (out.new.items ≡ out.old.items ++ specs.remark_text name.now remark.now) }
{
    put(out, b"# ")?;
    put(out, name)?;
    put(out, b" ")?;
    put(out, remark)?;
    put(out, b"\n")
}

// Appends the beginning of a comment on a line of the script.
fn put_line_begin(out: &mut Vec<u8>, line: u32) -> Result<(), AllocError>
    ensures { OnOk result (out.new.items ≡ out.old.items ++ specs.line_begin line) }
{
    put(out, b"# line ")?;
    put_decimal(out, u64::from(line))?;
    put(out, b" of the script has ")
}

// Appends a comment on a line of the script, which has this.
fn put_line_remark(out: &mut Vec<u8>, line: u32, what: &[u8]) -> Result<(), AllocError>
    ensures { OnOk result (out.new.items ≡ out.old.items ++ specs.line_remark line what.now) }
{
    put_line_begin(out, line)?;
    put(out, what)?;
    put(out, b", which ip can't say\n")
}

// Appends the beginning of the command that sets an interface.
fn put_link_begin(out: &mut Vec<u8>, name: &Name) -> Result<(), AllocError>
    ensures { OnOk result (out.new.items ≡ out.old.items ++ specs.link_begin name.now) }
{
    put(out, b"ip link set dev ")?;
    put(out, name.bytes())?;
    put(out, b" address ")
}

// Appends the same with the interface's address.
fn put_link(out: &mut Vec<u8>, interface: &Interface) -> Result<(), AllocError>
    ensures { OnOk result (out.new.items ≡ out.old.items ++ specs.link_text interface.now) }
{
    put_link_begin(out, &interface.name)?;
    put_mac(out, interface.mac)
}

// The word for an interface that is up, or for one that is down.
fn up_word(up: bool) -> &'static [u8]
    ensures { result.now ≡ specs.up_word up }
{
    if up { b" up" } else { b" down" }
}

// Appends the end of that command: the longest datagrams, and whether it is up.
fn put_state(out: &mut Vec<u8>, interface: &Interface) -> Result<(), AllocError>
    ensures { OnOk result (out.new.items ≡ out.old.items ++ specs.state_text interface.now) }
{
    put(out, b" mtu ")?;
    put_decimal(out, u64::from(interface.mtu))?;
    put(out, up_word(interface.up))?;
    put(out, b"\n")
}

// Appends a comment on an interface without `filter`.
fn put_filter(out: &mut Vec<u8>, interface: &Interface) -> Result<(), AllocError>
    ensures { OnOk result (out.new.items ≡ out.old.items ++ specs.filter_text interface.now) }
{
    if interface.filter {
        return Ok(());
    }
    put_remark(
        out,
        interface.name.bytes(),
        b"takes frames to every address; the kernel's router takes those to its own",
    )
}

// Appends the command that sets an interface, or a comment in its place.
fn put_interface(out: &mut Vec<u8>, interface: &Interface) -> Result<(), AllocError>
    ensures { OnOk result (out.new.items ≡ out.old.items ++ specs.interface_text interface.now) }
{
    if !is_sayable(interface) {
        return put_remark(
            out,
            interface.name.bytes(),
            b"has a name of more than 15 letters or an address of no station, which ip can't say",
        );
    }
    put_link(out, interface)?;
    put_state(out, interface)?;
    put_filter(out, interface)
}

// Appends the commands that set all interfaces.
fn put_interfaces(out: &mut Vec<u8>, graph: &Graph) -> Result<(), AllocError>
    ensures { OnOk result (out.new.items ≡ out.old.items ++ specs.interfaces_text graph.now) }
{
    for number in 0..graph.interfaces() {
        put_interface(out, graph.interface_at(number))?;
    }
    Ok(())
}

// Appends the address of the neighbor of a number.
fn put_neighbor_address(out: &mut Vec<u8>, version: Version, number: u16) -> Result<(), AllocError>
    requires { number < 65535 }
    ensures { OnOk result (out.new.items ≡ out.old.items ++ specs.neighbor_address version number) }
{
    match version {
        Version::Ip4 => put_address(out, 0xc612_0001 + u32::from(number)),
        Version::Ip6 => {
            put(out, b"fe80::")?;
            put_group(out, number + 1)
        }
    }
}

// Appends the beginning of the command that sets an address of a neighbor.
fn put_neighbor_begin(out: &mut Vec<u8>, version: Version, number: u16) -> Result<(), AllocError>
    requires { number < 65535 }
    ensures { OnOk result (out.new.items ≡ out.old.items ++ specs.neighbor_begin version number) }
{
    put(out, b"ip neighbor replace ")?;
    put_neighbor_address(out, version, number)?;
    put(out, b" lladdr ")
}

// Appends the same with the neighbor's link-layer address.
fn put_neighbor_link(
    out: &mut Vec<u8>,
    version: Version,
    number: u16,
    mac: Mac,
) -> Result<(), AllocError>
    requires { number < 65535 }
    ensures { OnOk result (out.new.items ≡ out.old.items ++ specs.neighbor_link version number mac) }
{
    put_neighbor_begin(out, version, number)?;
    put_mac(out, mac)
}

// Appends the command that sets an address of a neighbor.
fn put_neighbor(
    out: &mut Vec<u8>,
    version: Version,
    number: u16,
    mac: Mac,
    interface: &Name,
) -> Result<(), AllocError>
    requires { number < 65535 }
    ensures { OnOk result (out.new.items ≡ out.old.items ++ specs.neighbor_text version number mac interface.now) }
{
    put_neighbor_link(out, version, number, mac)?;
    put(out, b" dev ")?;
    put(out, interface.bytes())?;
    put(out, b" nud permanent\n")
}

// What is said of a neighbor where its interface isn't open.
fn closed_text(version: Version) -> &'static [u8]
    ensures { result.now ≡ specs.closed_text version }
{
    match version {
        Version::Ip4 => b"is behind an interface which isn't up",
        Version::Ip6 => b"has no IPv6: its interface isn't up, or has an mtu below 1280",
    }
}

// Appends the command that sets an address of a neighbor behind this interface; none where it isn't open: the kernel has no neighbor there.
fn put_neighbor_behind(
    out: &mut Vec<u8>,
    version: Version,
    number: u16,
    adjacency: &Adjacency,
    interface: Option<&Name>,
) -> Result<(), AllocError>
    requires { number < 65535 }
    ensures { OnOk result (out.new.items ≡ out.old.items ++ specs.neighbor_behind version number adjacency.now (option_map (λ name. name.now) interface.entry)) }
{
    match interface {
        Some(interface) => put_neighbor(out, version, number, adjacency.mac, interface),
        None => put_remark(out, adjacency.name.bytes(), closed_text(version)),
    }
}

// Appends the commands that set both addresses of a neighbor.
fn put_neighbor_both(
    out: &mut Vec<u8>,
    graph: &Graph,
    number: u16,
    adjacency: &Adjacency,
) -> Result<(), AllocError>
    requires { number < 65535 }
    ensures { OnOk result (out.new.items ≡ out.old.items ++ specs.neighbor_both graph.now number adjacency.now) }
{
    let ip4 = interface_of(Version::Ip4, graph, number);
    put_neighbor_behind(out, Version::Ip4, number, adjacency, ip4)?;
    let ip6 = interface_of(Version::Ip6, graph, number);
    put_neighbor_behind(out, Version::Ip6, number, adjacency, ip6)
}

// Appends the commands that set the addresses of all neighbors.
fn put_neighbors(out: &mut Vec<u8>, graph: &Graph) -> Result<(), AllocError>
    ensures { OnOk result (out.new.items ≡ out.old.items ++ specs.neighbors_text graph.now) }
{
    for number in 0..graph.adjacencies() {
        put_neighbor_both(out, graph, number, graph.adjacency_at(number))?;
    }
    Ok(())
}

// Appends the way over a neighbor behind this interface.
fn put_way_over(
    out: &mut Vec<u8>,
    version: Version,
    begin: &[u8],
    number: u16,
    interface: &Name,
) -> Result<(), AllocError>
    requires { number < 65535 }
    ensures { OnOk result (out.new.items ≡ out.old.items ++ specs.way_over version begin.now number interface.now) }
{
    put(out, begin)?;
    put(out, b" via ")?;
    put_neighbor_address(out, version, number)?;
    put(out, b" dev ")?;
    put(out, interface.bytes())?;
    put(out, b" onlink")
}

// Appends the way over a neighbor, where its interface is open.
fn put_way(
    out: &mut Vec<u8>,
    version: Version,
    graph: &Graph,
    begin: &[u8],
    number: u16,
) -> Result<(), AllocError>
    ensures { OnOk result (out.new.items ≡ out.old.items ++ specs.way_text version graph.now begin.now number) }
{
    match interface_of(version, graph, number) {
        Some(interface) => put_way_over(out, version, begin, number, interface),
        None => Ok(()),
    }
}

// The word for each way, where there are several.
fn way_begin(members: &[u16]) -> &'static [u8]
    ensures { result.now ≡ specs.way_begin members.now }
{
    if members.len() == 1 { b"" } else { b" nexthop" }
}

// Appends the ways over neighbors, each behind a word.
fn put_ways(
    out: &mut Vec<u8>,
    version: Version,
    graph: &Graph,
    begin: &[u8],
    members: &[u16],
) -> Result<(), AllocError>
    ensures { OnOk result (out.new.items ≡ out.old.items ++ specs.ways_text version graph.now begin.now members.now) }
{
    for member in members {
        put_way(out, version, graph, begin, *member)?;
    }
    Ok(())
}

// The word of a route over neighbors behind interfaces none of which is open: it drops.
fn hole_word(version: Version, graph: &Graph, members: &[u16]) -> &'static [u8]
    ensures { result.now ≡ specs.hole_word version graph.now members.now }
{
    if are_closed(version, graph, members) {
        b"blackhole "
    } else {
        b""
    }
}

// Appends the command that sets a route over neighbors, of those whose interface is open.
fn put_route_over(
    out: &mut Vec<u8>,
    version: Version,
    graph: &Graph,
    prefix: &[u8],
    members: &[u16],
) -> Result<(), AllocError>
    ensures { OnOk result (out.new.items ≡ out.old.items ++ specs.route_over version graph.now prefix.now members.now) }
{
    put(out, version.route())?;
    put(out, hole_word(version, graph, members))?;
    put(out, prefix)?;
    put_ways(out, version, graph, way_begin(members), members)?;
    put(out, b"\n")
}

// Appends the command that sets a route over neighbors, or a comment in its place.
fn put_via(
    out: &mut Vec<u8>,
    version: Version,
    graph: &Graph,
    prefix: &[u8],
    members: &[u16],
) -> Result<(), AllocError>
    ensures { OnOk result (out.new.items ≡ out.old.items ++ specs.via_text version graph.now prefix.now members.now) }
{
    if is_sayable_over(version, members) {
        put_route_over(out, version, graph, prefix, members)
    } else {
        put_remark(out, prefix, b"has a neighbor twice, which ip can't say")
    }
}

// Appends the command that sets a route to this host, in the table of the others: that of its own is asked first.
fn put_local(out: &mut Vec<u8>, version: Version, prefix: &[u8]) -> Result<(), AllocError>
    ensures { OnOk result (out.new.items ≡ out.old.items ++ specs.local_text version prefix.now) }
{
    put(out, version.route())?;
    put(out, b"local ")?;
    put(out, prefix)?;
    put_line(out, b" dev lo table main")
}

// Appends the command that sets the route of a prefix.
fn put_route(
    out: &mut Vec<u8>,
    version: Version,
    graph: &Graph,
    prefix: &[u8],
    to: &RouteTo,
) -> Result<(), AllocError>
    ensures { OnOk result (out.new.items ≡ out.old.items ++ specs.route_text version graph.now prefix.now to.now) }
{
    match to {
        RouteTo::Via(members) => put_via(out, version, graph, prefix, members.as_slice()),
        RouteTo::Local => put_local(out, version, prefix),
        RouteTo::Drop => {
            put(out, version.route())?;
            put(out, b"blackhole ")?;
            put(out, prefix)?;
            put(out, b"\n")
        }
    }
}

// Appends the command that sets an IPv4 route.
fn put_route4(
    out: &mut Vec<u8>,
    alloc: Global,
    graph: &Graph,
    prefix: Prefix,
    to: &RouteTo,
) -> Result<(), AllocError>
    ensures { OnOk result (out.new.items ≡ out.old.items ++ specs.route4_text graph.now (prefix, to.now)) }
{
    let mut text = Vec::new(alloc);
    put_prefix(&mut text, prefix)?;
    put_route(out, Version::Ip4, graph, text.as_slice(), to)
}

// Appends the command that sets an IPv6 route.
fn put_route6(
    out: &mut Vec<u8>,
    alloc: Global,
    graph: &Graph,
    prefix: Prefix6,
    to: &RouteTo,
) -> Result<(), AllocError>
    ensures { OnOk result (out.new.items ≡ out.old.items ++ specs.route6_text graph.now (prefix, to.now)) }
{
    let mut text = Vec::new(alloc);
    put_prefix6(&mut text, prefix)?;
    put_route(out, Version::Ip6, graph, text.as_slice(), to)
}

// Appends the commands that set all IPv4 routes.
fn put_routes(
    out: &mut Vec<u8>,
    alloc: Global,
    graph: &Graph,
    routes: &[(Prefix, RouteTo)],
) -> Result<(), AllocError>
    ensures { OnOk result (out.new.items ≡ out.old.items ++ flat_map (specs.route4_text graph.now) routes.now) }
{
    for route in routes {
        put_route4(out, alloc, graph, route.0, &route.1)?;
    }
    Ok(())
}

// Appends the commands that set all IPv6 routes.
fn put_routes6(
    out: &mut Vec<u8>,
    alloc: Global,
    graph: &Graph,
    routes: &[(Prefix6, RouteTo)],
) -> Result<(), AllocError>
    ensures { OnOk result (out.new.items ≡ out.old.items ++ flat_map (specs.route6_text graph.now) routes.now) }
{
    for route in routes {
        put_route6(out, alloc, graph, route.0, &route.1)?;
    }
    Ok(())
}

// Appends a line of a comment on an edit which no command stands for.
fn put_edit_remark(out: &mut Vec<u8>, line: &EditLine) -> Result<(), AllocError>
    ensures { OnOk result (out.new.items ≡ out.old.items ++ specs.remark_on line.now.line line.now.edit) }
{
    match &line.edit {
        Edit::Node { .. } => put_line_remark(out, line.line, b"a node"),
        Edit::Arc { .. } => put_line_remark(out, line.line, b"an arc"),
        _ => Ok(()),
    }
}

// Appends those on all edits outside blocks.
fn put_edit_remarks(out: &mut Vec<u8>, lines: &[EditLine]) -> Result<(), AllocError>
    ensures { OnOk result (out.new.items ≡ out.old.items ++ specs.edit_remarks lines.now) }
{
    for line in lines {
        put_edit_remark(out, line)?;
    }
    Ok(())
}

// The line on which a block begins.
fn block_line(block: &Block) -> u32
    ensures { result ≡ specs.block_line block.now }
{
    match block {
        Block::At { line, .. } | Block::Process { line, .. } => *line,
    }
}

// Appends a line of a comment on each block.
fn put_block_remarks(out: &mut Vec<u8>, blocks: &[Block]) -> Result<(), AllocError>
    ensures { OnOk result (out.new.items ≡ out.old.items ++ specs.block_remarks blocks.now) }
{
    for block in blocks {
        put_line_remark(out, block_line(block), b"a block")?;
    }
    Ok(())
}

// Appends the commands for a graph with these routes.
fn put_graph(
    out: &mut Vec<u8>,
    alloc: Global,
    graph: &Graph,
    routes: &[(Prefix, RouteTo)],
    routes6: &[(Prefix6, RouteTo)],
) -> Result<(), AllocError>
    ensures { OnOk result (out.new.items ≡ out.old.items ++ specs.graph_text (with_routes graph.now routes.now routes6.now)) }
{
    put_interfaces(out, graph)?;
    put_neighbors(out, graph)?;
    put_routes(out, alloc, graph, routes)?;
    put_routes6(out, alloc, graph, routes6)
}

// Appends the commands for the first graph of a plan.
fn put_first(out: &mut Vec<u8>, alloc: Global, plan: &Plan) -> Result<(), AllocError>
    ensures { OnOk result (out.new.items ≡ out.old.items ++ specs.first_text plan.now) }
{
    let master = match Master::new(alloc, plan) {
        Ok(master) => master,
        Err(_) => return Err(AllocError),
    };
    put_graph(
        out,
        alloc,
        master.graph(),
        master.fib().routes(),
        master.fib6().routes(),
    )
}

// Appends a line of a comment on each statement of a script which no command stands for.
fn put_remarks(out: &mut Vec<u8>, script: &Script) -> Result<(), AllocError>
    ensures { OnOk result (out.new.items ≡ out.old.items ++ specs.remarks_text script.now) }
{
    put_edit_remarks(out, script.start.as_slice())?;
    put_block_remarks(out, script.blocks.as_slice())
}

/// The commands that make the kernel's router of a plan's first generation: its interfaces, which there have to be already, its neighbors and
/// its routes; and what they can't say.
///
/// # Errors
///
/// [`AllocError`] where memory runs out.
pub fn commands(alloc: Global, plan: &Plan) -> Result<Vec<u8>, AllocError>
    ensures { IfOk result (λ text. text.items ≡ specs.commands_text plan.now) }
{
    let mut out = Vec::new(alloc);
    put_head(&mut out)?;
    put_first(&mut out, alloc, plan)?;
    put_remarks(&mut out, plan.script())?;
    Ok(out)
}
