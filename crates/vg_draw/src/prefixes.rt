//! The prefixes that stand at a neighbor. Each function appends to one growing buffer; where memory runs out it stops.
ghost use Rattle.std.specs.Prelude.{◌≡◌, ◌==◌, ◌&&◌, ◌/◌, ◌%◌, ◌-◌, ◌++◌, ◌∷◌, codes, decimal, flat_map, length, map, not, take, OnOk, IfOk, if◌then◌else◌};
ghost use Rattle.std.specs.List.{join_with_byte, list_any};
ghost use Rattle.vg_model.specs.Route.{ip4, ip6, is_same};
ghost use Rattle.vg_draw.specs.Prefixes.{group_text, groups_text, address_groups as groups_of_address, prefix_text, address6_text, prefix6_text, leads_over as leads_over_of, has_over, prefix_line, line_over, lines_over, count_over, more_text, seen, prefixes_text};

use crate::words::{hex_digit, put, put_decimal, put_pair};
use std::alloc::AllocError;
use vg_model::{Prefix, Prefix6, RouteTo};

/// The routes of a graph.
#[derive(Clone, Copy)]
pub struct Routes<'a> {
    pub ip4: &'a [(Prefix, RouteTo)],
    pub ip6: &'a [(Prefix6, RouteTo)],
}

/// How many prefixes stand at a neighbor at most.
const MOST_SHOWN: usize = 8;

// Appends these numbers, parted by `.`.
fn put_parts(out: &mut Vec<u8>, numbers: &[u8]) -> Result<(), AllocError>
    ensures { OnOk result (out.new.items ≡ out.old.items ++ join_with_byte 46 (map decimal numbers.now)) }
{
    let Some((first, others)) = numbers.split_first() else {
        return Ok(());
    };
    put_decimal(out, u64::from(*first))?;
    for number in others {
        put(out, b".")?;
        put_decimal(out, u64::from(*number))?;
    }
    Ok(())
}

// Appends an IPv4 prefix.
fn put_prefix(out: &mut Vec<u8>, prefix: Prefix) -> Result<(), AllocError>
    ensures { OnOk result (out.new.items ≡ out.old.items ++ prefix_text prefix) }
{
    put_parts(out, &prefix.addr.to_be_bytes())?;
    put(out, b"/")?;
    put_decimal(out, u64::from(prefix.len))
}

// Appends a group of an IPv6 address, without zeros in front.
fn put_group(out: &mut Vec<u8>, group: u16) -> Result<(), AllocError>
    ensures { OnOk result (out.new.items ≡ out.old.items ++ group_text group) }
{
    let high = (group / 256) as u8;
    let low = (group % 256) as u8;
    if group < 16 {
        return put(out, &[hex_digit(low)]);
    }
    if group >= 4096 {
        put_pair(out, high)?;
    } else if group >= 256 {
        put(out, &[hex_digit(high)])?;
    }
    put_pair(out, low)
}

// Appends groups, parted by `:`.
fn put_groups(out: &mut Vec<u8>, groups: &[u16]) -> Result<(), AllocError>
    ensures { OnOk result (out.new.items ≡ out.old.items ++ groups_text groups.now) }
{
    let Some((first, others)) = groups.split_first() else {
        return Ok(());
    };
    put_group(out, *first)?;
    for group in others {
        put(out, b":")?;
        put_group(out, *group)?;
    }
    Ok(())
}

// A number's lowest group, and the number of the groups before it.
fn split_group(number: u128) -> (u128, u16)
    ensures others { result.0 ≡ number / 65536 }
    ensures last { result.1 ≡ number % 65536 }
{
    (number / 65536, (number % 65536) as u16)
}

// The eight groups of an address, the highest first.
fn address_groups(addr: u128) -> [u16; 8]
    ensures { result ≡ groups_of_address addr }
{
    let (rest, eighth) = split_group(addr);
    let (rest, seventh) = split_group(rest);
    let (rest, sixth) = split_group(rest);
    let (rest, fifth) = split_group(rest);
    let (rest, fourth) = split_group(rest);
    let (rest, third) = split_group(rest);
    let (rest, second) = split_group(rest);
    let (_, first) = split_group(rest);
    [first, second, third, fourth, fifth, sixth, seventh, eighth]
}

// Appends the address of an IPv6 prefix: where at most six groups have bits of it, `::` stands for the others.
fn put_address6(out: &mut Vec<u8>, groups: &[u16], len: u8) -> Result<(), AllocError>
    requires { length groups.now ≡ 8 }
    ensures { OnOk result (out.new.items ≡ out.old.items ++ address6_text groups.now len) }
{
    let within = (usize::from(len) + 15) / 16;
    if within > 6 {
        return put_groups(out, groups);
    }
    put_groups(out, &groups[..within])?;
    put(out, b"::")
}

// Appends an IPv6 prefix.
fn put_prefix6(out: &mut Vec<u8>, prefix: Prefix6) -> Result<(), AllocError>
    ensures { OnOk result (out.new.items ≡ out.old.items ++ prefix6_text prefix) }
{
    put_address6(out, &address_groups(prefix.addr), prefix.len)?;
    put(out, b"/")?;
    put_decimal(out, u64::from(prefix.len))
}

// Whether a neighbor is one of these.
fn is_member(number: u16, members: &[u16]) -> bool
    ensures { result ≡ list_any (λ member. member == number) members.now }
{
    members.iter().any(|member| *member == number)
}

// Whether a route leads over a neighbor, alone or among several.
fn leads_over(number: u16, to: &RouteTo) -> bool
    ensures { result ≡ leads_over_of number to.now }
{
    match to {
        RouteTo::Via(members) => is_member(number, members.as_slice()),
        _ => false,
    }
}

// Whether a route is of this IPv4 prefix and leads over a neighbor.
fn is_ip4(number: u16, prefix: Prefix, route: &(Prefix, RouteTo)) -> bool
    ensures { result ≡ (is_same ip4 route.now.0 prefix && leads_over_of number route.now.1) }
{
    route.0.addr == prefix.addr && route.0.len == prefix.len && leads_over(number, &route.1)
}

// Whether a route of this IPv4 prefix leads over a neighbor.
fn has_ip4(number: u16, routes: &[(Prefix, RouteTo)], prefix: Prefix) -> bool
    ensures { result ≡ has_over ip4 number routes.now prefix }
{
    routes.iter().any(|route| is_ip4(number, prefix, route))
}

// Whether a route is of this IPv6 prefix and leads over a neighbor.
fn is_ip6(number: u16, prefix: Prefix6, route: &(Prefix6, RouteTo)) -> bool
    ensures { result ≡ (is_same ip6 route.now.0 prefix && leads_over_of number route.now.1) }
{
    route.0.addr == prefix.addr && route.0.len == prefix.len && leads_over(number, &route.1)
}

// Whether a route of this IPv6 prefix leads over a neighbor.
fn has_ip6(number: u16, routes: &[(Prefix6, RouteTo)], prefix: Prefix6) -> bool
    ensures { result ≡ has_over ip6 number routes.now prefix }
{
    routes.iter().any(|route| is_ip6(number, prefix, route))
}

// Appends the line of an IPv4 prefix, in bold where it is new.
fn put_ip4_line(out: &mut Vec<u8>, new: bool, prefix: Prefix) -> Result<(), AllocError>
    ensures { OnOk result (out.new.items ≡ out.old.items ++ prefix_line new (prefix_text prefix)) }
{
    if new {
        put(out, b"<BR/><B>")?;
        put_prefix(out, prefix)?;
        return put(out, b"</B>");
    }
    put(out, b"<BR/>")?;
    put_prefix(out, prefix)
}

// Appends the line of an IPv6 prefix, in bold where it is new.
fn put_ip6_line(out: &mut Vec<u8>, new: bool, prefix: Prefix6) -> Result<(), AllocError>
    ensures { OnOk result (out.new.items ≡ out.old.items ++ prefix_line new (prefix6_text prefix)) }
{
    if new {
        put(out, b"<BR/><B>")?;
        put_prefix6(out, prefix)?;
        return put(out, b"</B>");
    }
    put(out, b"<BR/>")?;
    put_prefix6(out, prefix)
}

// Appends the line of an IPv4 route at a neighbor, where it leads over it and so many lines more may stand; how many more then may.
#[tactic(auto, using(std::proofs::lemmas::Grind::common_steps, crate::proofs::PrefixLemmas::shown_line, crate::proofs::PrefixLemmas::shown_none))]
fn put_ip4_route(
    out: &mut Vec<u8>,
    number: u16,
    before: &[(Prefix, RouteTo)],
    route: &(Prefix, RouteTo),
    left: usize,
) -> Result<usize, AllocError>
    ensures text { OnOk result (out.new.items ≡ out.old.items ++ flat_map (λ line. line) (take left (line_over ip4 prefix_text number before.now route.now))) }
    ensures left { IfOk result (λ n. n ≡ left - length (line_over ip4 prefix_text number before.now route.now)) }
{
    if left == 0 {
        return Ok(0);
    }
    if !leads_over(number, &route.1) {
        return Ok(left);
    }
    put_ip4_line(out, !has_ip4(number, before, route.0), route.0)?;
    Ok(left - 1)
}

// Appends the line of an IPv6 route at a neighbor, where it leads over it and so many lines more may stand; how many more then may.
#[tactic(auto, using(std::proofs::lemmas::Grind::common_steps, crate::proofs::PrefixLemmas::shown_line, crate::proofs::PrefixLemmas::shown_none))]
fn put_ip6_route(
    out: &mut Vec<u8>,
    number: u16,
    before: &[(Prefix6, RouteTo)],
    route: &(Prefix6, RouteTo),
    left: usize,
) -> Result<usize, AllocError>
    ensures text { OnOk result (out.new.items ≡ out.old.items ++ flat_map (λ line. line) (take left (line_over ip6 prefix6_text number before.now route.now))) }
    ensures left { IfOk result (λ n. n ≡ left - length (line_over ip6 prefix6_text number before.now route.now)) }
{
    if left == 0 {
        return Ok(0);
    }
    if !leads_over(number, &route.1) {
        return Ok(left);
    }
    put_ip6_line(out, !has_ip6(number, before, route.0), route.0)?;
    Ok(left - 1)
}

// Appends the lines of the IPv4 routes at a neighbor, so many at most.
fn put_ip4(
    out: &mut Vec<u8>,
    number: u16,
    before: &[(Prefix, RouteTo)],
    routes: &[(Prefix, RouteTo)],
    room: usize,
) -> Result<(), AllocError>
    ensures { OnOk result (out.new.items ≡ out.old.items ++ flat_map (λ line. line) (take room (lines_over ip4 prefix_text number before.now routes.now))) }
{
    let mut left = room;
    for route in routes {
        left = put_ip4_route(out, number, before, route, left)?;
    }
    Ok(())
}

// Appends the lines of the IPv6 routes at a neighbor, so many at most.
fn put_ip6(
    out: &mut Vec<u8>,
    number: u16,
    before: &[(Prefix6, RouteTo)],
    routes: &[(Prefix6, RouteTo)],
    room: usize,
) -> Result<(), AllocError>
    ensures { OnOk result (out.new.items ≡ out.old.items ++ flat_map (λ line. line) (take room (lines_over ip6 prefix6_text number before.now routes.now))) }
{
    let mut left = room;
    for route in routes {
        left = put_ip6_route(out, number, before, route, left)?;
    }
    Ok(())
}

// How many IPv4 routes lead over a neighbor.
fn count_ip4(number: u16, routes: &[(Prefix, RouteTo)]) -> usize
    ensures { result ≡ count_over number routes.now }
{
    routes
        .iter()
        .filter(|route| leads_over(number, &route.1))
        .count()
}

// How many IPv6 routes lead over a neighbor.
fn count_ip6(number: u16, routes: &[(Prefix6, RouteTo)]) -> usize
    ensures { result ≡ count_over number routes.now }
{
    routes
        .iter()
        .filter(|route| leads_over(number, &route.1))
        .count()
}

// Appends how many prefixes more there are.
fn put_more(out: &mut Vec<u8>, more: usize) -> Result<(), AllocError>
    ensures { OnOk result (out.new.items ≡ out.old.items ++ more_text more) }
{
    if more == 0 {
        return Ok(());
    }
    put(out, b"<BR/>and ")?;
    put_decimal(out, more as u64)?;
    put(out, b" more")
}

/// Appends the prefixes at a neighbor, those of IPv4 first: eight of them, and how many more there are.
pub fn put_prefixes(
    out: &mut Vec<u8>,
    number: u16,
    before: Routes<'_>,
    routes: Routes<'_>,
) -> Result<(), AllocError>
    ensures { OnOk result (out.new.items ≡ out.old.items ++ prefixes_text number (seen before.entry) (seen routes.entry)) }
{
    let first = count_ip4(number, routes.ip4);
    let all = first + count_ip6(number, routes.ip6);
    put_ip4(out, number, before.ip4, routes.ip4, MOST_SHOWN)?;
    let room = MOST_SHOWN.saturating_sub(first);
    put_ip6(out, number, before.ip6, routes.ip6, room)?;
    put_more(out, all.saturating_sub(MOST_SHOWN))
}
