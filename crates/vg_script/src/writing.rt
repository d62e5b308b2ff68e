//! Printing a script. Each function appends to one growing buffer; where memory runs out it stops.
ghost use Rattle.std.specs.Prelude.{◌≡◌, ◌<◌, ◌++◌, [], ◌∷◌, codes, decimal, flat_map, map, OnOk, IfOk, if◌then◌else◌};
ghost use Rattle.std.specs.Char.{digit_char};
ghost use Rattle.std.specs.List.{join_with_byte};
ghost use Rattle.vg_script.specs.Lawful.{IsLawful};
ghost use Rattle.vg_script.specs.Plain.{line_text, pair_text, mac_text, address_text, prefix_text, group_text, address6_text, prefix6_text, names_text, kind_text, target_words, edit_words, edit_lines, group_lines, block_lines, plain};

use crate::address6::address_groups;
use crate::lists::Groups;
use crate::scripts::{Block, Script};
use itoa::Buffer;
use std::alloc::{AllocError, Global};
use vg_model::{
    Bytes, Edit, EditLine, Edits, Kind, KindWord, Mac, Memory, Name, Prefix, Prefix6, RouteWord,
};

// Appends these bytes.
fn put(out: &mut Vec<u8>, bytes: &[u8]) -> Result<(), AllocError>
    ensures { OnOk result (out.new.items ≡ out.old.items ++ bytes.now) }
{
    out.extend_from_slice(bytes)
}

// Appends the digits of a number.
fn put_decimal(out: &mut Vec<u8>, number: u64) -> Result<(), AllocError>
    ensures { OnOk result (out.new.items ≡ out.old.items ++ decimal number) }
{
    put(out, Buffer::new().format(number).as_bytes())
}

// A further word of a line, behind the space that parts it from the word before.
fn put_word(out: &mut Vec<u8>, word: &[u8]) -> Result<(), AllocError>
    ensures { OnOk result (out.new.items ≡ out.old.items ++ 32 ∷ word.now) }
{
    put(out, b" ")?;
    put(out, word)
}

// A further word that is a number.
fn put_number(out: &mut Vec<u8>, number: u64) -> Result<(), AllocError>
    ensures { OnOk result (out.new.items ≡ out.old.items ++ 32 ∷ decimal number) }
{
    put(out, b" ")?;
    put_decimal(out, number)
}

fn end_line(out: &mut Vec<u8>) -> Result<(), AllocError>
    ensures { OnOk result (out.new.items ≡ out.old.items ++ 10 ∷ []) }
{
    put(out, b"\n")
}

fn hex_digit(value: u8) -> u8
    requires { value < 16 }
    ensures { result ≡ digit_char value }
{
    if value < 10 {
        b'0' + value
    } else {
        b'a' + (value - 10)
    }
}

// Appends a byte as two hexadecimal digits.
fn put_pair(out: &mut Vec<u8>, byte: u8) -> Result<(), AllocError>
    ensures { OnOk result (out.new.items ≡ out.old.items ++ pair_text byte) }
{
    put(out, &[hex_digit(byte / 16), hex_digit(byte % 16)])
}

// Appends the pairs of these bytes, parted by `:`.
fn put_pairs(out: &mut Vec<u8>, bytes: &[u8]) -> Result<(), AllocError>
    ensures { OnOk result (out.new.items ≡ out.old.items ++ join_with_byte 58 (map pair_text bytes.now)) }
{
    let Some((first, others)) = bytes.split_first() else {
        return Ok(());
    };
    put_pair(out, *first)?;
    for byte in others {
        put(out, b":")?;
        put_pair(out, *byte)?;
    }
    Ok(())
}

// A further word that is a link-layer address.
fn put_mac(out: &mut Vec<u8>, mac: Mac) -> Result<(), AllocError>
    ensures { OnOk result (out.new.items ≡ out.old.items ++ 32 ∷ mac_text mac) }
{
    put(out, b" ")?;
    put_pairs(out, &mac.0)
}

// Appends these numbers, parted by `.`.
fn put_parts(out: &mut Vec<u8>, numbers: &[u8]) -> Result<(), AllocError>
    ensures { OnOk result (out.new.items ≡ out.old.items ++ join_with_byte 46 (map decimal numbers.now)) }
{
    let Some((first, others)) = numbers.split_first() else {
        return Ok(());
    };
    put_decimal(out, u64::from(*first))?;
    for number in others {
        put(out, b".")?;
        put_decimal(out, u64::from(*number))?;
    }
    Ok(())
}

// A further word that is a prefix.
fn put_prefix(out: &mut Vec<u8>, prefix: Prefix) -> Result<(), AllocError>
    ensures { OnOk result (out.new.items ≡ out.old.items ++ 32 ∷ prefix_text prefix) }
{
    put(out, b" ")?;
    put_parts(out, &prefix.addr.to_be_bytes())?;
    put(out, b"/")?;
    put_decimal(out, u64::from(prefix.len))
}

// Appends a group of an IPv6 address, without zeros in front.
fn put_group(out: &mut Vec<u8>, group: u16) -> Result<(), AllocError>
    ensures { OnOk result (out.new.items ≡ out.old.items ++ group_text group) }
{
    let high = (group / 256) as u8;
    let low = (group % 256) as u8;
    if group < 16 {
        return put(out, &[hex_digit(low)]);
    }
    if group >= 4096 {
        put_pair(out, high)?;
    } else if group >= 256 {
        put(out, &[hex_digit(high)])?;
    }
    put_pair(out, low)
}

// Appends groups, parted by `:`.
fn put_address_groups(out: &mut Vec<u8>, groups: &[u16]) -> Result<(), AllocError>
    ensures { OnOk result (out.new.items ≡ out.old.items ++ join_with_byte 58 (map group_text groups.now)) }
{
    let Some((first, others)) = groups.split_first() else {
        return Ok(());
    };
    put_group(out, *first)?;
    for group in others {
        put(out, b":")?;
        put_group(out, *group)?;
    }
    Ok(())
}

// A further word that is an IPv6 prefix.
fn put_prefix6(out: &mut Vec<u8>, prefix: Prefix6) -> Result<(), AllocError>
    ensures { OnOk result (out.new.items ≡ out.old.items ++ 32 ∷ prefix6_text prefix) }
{
    put(out, b" ")?;
    put_address_groups(out, &address_groups(prefix.addr))?;
    put(out, b"/")?;
    put_decimal(out, u64::from(prefix.len))
}

// Appends names, parted by `,`.
fn put_names(out: &mut Vec<u8>, names: &[Name]) -> Result<(), AllocError>
    ensures { OnOk result (out.new.items ≡ out.old.items ++ names_text names.now) }
{
    let Some((first, others)) = names.split_first() else {
        return Ok(());
    };
    put(out, first.bytes())?;
    for name in others {
        put(out, b",")?;
        put(out, name.bytes())?;
    }
    Ok(())
}

// The further words that say where a route leads.
fn put_target(out: &mut Vec<u8>, to: &RouteWord) -> Result<(), AllocError>
    ensures { OnOk result (out.new.items ≡ out.old.items ++ flat_map (λ word. 32 ∷ word) (target_words to.now)) }
{
    match to {
        RouteWord::Via(names) => {
            put(out, b" via ")?;
            put_names(out, names.as_slice())
        }
        RouteWord::Local => put_word(out, b"local"),
        RouteWord::Drop => put_word(out, b"drop"),
    }
}

// A further word that says whether an interface is up.
fn put_up_or_down(out: &mut Vec<u8>, up: bool) -> Result<(), AllocError>
    ensures { OnOk result (out.new.items ≡ out.old.items ++ 32 ∷ (if up then codes "up" else codes "down")) }
{
    if up {
        put_word(out, b"up")
    } else {
        put_word(out, b"down")
    }
}

// The further word of an interface that filters.
fn put_filter(out: &mut Vec<u8>, filter: bool) -> Result<(), AllocError>
    ensures { OnOk result (out.new.items ≡ out.old.items ++ flat_map (λ word. 32 ∷ word) (if filter then codes "filter" ∷ [] else [])) }
{
    if filter {
        put_word(out, b"filter")?;
    }
    Ok(())
}

fn put_interface(
    out: &mut Vec<u8>,
    name: &Name,
    mac: Mac,
    mtu: u16,
    up: bool,
    filter: bool,
) -> Result<(), AllocError>
    ensures { OnOk result (out.new.items ≡ out.old.items ++ line_text (edit_words (Edit.Interface name.now mac mtu up filter))) }
{
    put(out, b"interface")?;
    put_word(out, name.bytes())?;
    put_word(out, b"mac")?;
    put_mac(out, mac)?;
    put_word(out, b"mtu")?;
    put_number(out, u64::from(mtu))?;
    put_up_or_down(out, up)?;
    put_filter(out, filter)?;
    end_line(out)
}

// A further word that is a kind's: each kind of a lawful script has one.
fn put_kind(out: &mut Vec<u8>, kind: Kind) -> Result<(), AllocError>
    ensures { OnOk result (out.new.items ≡ out.old.items ++ 32 ∷ kind_text kind) }
{
    put(out, b" ")?;
    let Some(KindWord { text, number }) = kind.word() else {
        return Ok(());
    };
    put(out, text.as_bytes())?;
    match number {
        Some(number) => put_decimal(out, u64::from(number)),
        None => Ok(()),
    }
}

fn put_node(out: &mut Vec<u8>, name: &Name, kind: Kind) -> Result<(), AllocError>
    ensures { OnOk result (out.new.items ≡ out.old.items ++ line_text (edit_words (Edit.Node name.now kind))) }
{
    put(out, b"node")?;
    put_word(out, name.bytes())?;
    put_word(out, b"kind")?;
    put_kind(out, kind)?;
    end_line(out)
}

fn put_arc(out: &mut Vec<u8>, from: &Name, slot: &Name, to: &Name) -> Result<(), AllocError>
    ensures { OnOk result (out.new.items ≡ out.old.items ++ line_text (edit_words (Edit.Arc from.now slot.now to.now))) }
{
    put(out, b"arc")?;
    put_word(out, from.bytes())?;
    put_word(out, slot.bytes())?;
    put_word(out, to.bytes())?;
    end_line(out)
}

fn put_adjacency(
    out: &mut Vec<u8>,
    name: &Name,
    interface: &Name,
    mac: Mac,
) -> Result<(), AllocError>
    ensures { OnOk result (out.new.items ≡ out.old.items ++ line_text (edit_words (Edit.Adjacency name.now interface.now mac))) }
{
    put(out, b"adjacency")?;
    put_word(out, name.bytes())?;
    put_word(out, b"interface")?;
    put_word(out, interface.bytes())?;
    put_word(out, b"dst")?;
    put_mac(out, mac)?;
    end_line(out)
}

fn put_route(out: &mut Vec<u8>, prefix: Prefix, to: &RouteWord) -> Result<(), AllocError>
    ensures { OnOk result (out.new.items ≡ out.old.items ++ line_text (edit_words (Edit.Route prefix to.now))) }
{
    put(out, b"route")?;
    put_prefix(out, prefix)?;
    put_target(out, to)?;
    end_line(out)
}

fn put_unroute(out: &mut Vec<u8>, prefix: Prefix) -> Result<(), AllocError>
    ensures { OnOk result (out.new.items ≡ out.old.items ++ line_text (edit_words (Edit.Unroute prefix))) }
{
    put(out, b"unroute")?;
    put_prefix(out, prefix)?;
    end_line(out)
}

fn put_route6(out: &mut Vec<u8>, prefix: Prefix6, to: &RouteWord) -> Result<(), AllocError>
    ensures { OnOk result (out.new.items ≡ out.old.items ++ line_text (edit_words (Edit.Route6 prefix to.now))) }
{
    put(out, b"route6")?;
    put_prefix6(out, prefix)?;
    put_target(out, to)?;
    end_line(out)
}

fn put_unroute6(out: &mut Vec<u8>, prefix: Prefix6) -> Result<(), AllocError>
    ensures { OnOk result (out.new.items ≡ out.old.items ++ line_text (edit_words (Edit.Unroute6 prefix))) }
{
    put(out, b"unroute6")?;
    put_prefix6(out, prefix)?;
    end_line(out)
}

fn put_edit(out: &mut Vec<u8>, edit: &Edit) -> Result<(), AllocError>
    ensures { OnOk result (out.new.items ≡ out.old.items ++ line_text (edit_words edit.now)) }
{
    match edit {
        Edit::Interface {
            name,
            mac,
            mtu,
            up,
            filter,
        } => put_interface(out, name, *mac, *mtu, *up, *filter),
        Edit::Node { name, kind } => put_node(out, name, *kind),
        Edit::Arc { from, slot, to } => put_arc(out, from, slot, to),
        Edit::Adjacency {
            name,
            interface,
            mac,
        } => put_adjacency(out, name, interface, *mac),
        Edit::Route { prefix, to } => put_route(out, *prefix, to),
        Edit::Unroute { prefix } => put_unroute(out, *prefix),
        Edit::Route6 { prefix, to } => put_route6(out, *prefix, to),
        Edit::Unroute6 { prefix } => put_unroute6(out, *prefix),
    }
}

fn put_edits(out: &mut Vec<u8>, edits: &[EditLine]) -> Result<(), AllocError>
    ensures { OnOk result (out.new.items ≡ out.old.items ++ flat_map line_text (edit_lines edits.now)) }
{
    for line in edits {
        put_edit(out, &line.edit)?;
    }
    Ok(())
}

// Appends the edits of each group, with a `then` between each two.
fn put_groups(out: &mut Vec<u8>, groups: &[Edits]) -> Result<(), AllocError>
    ensures { OnOk result (out.new.items ≡ out.old.items ++ flat_map line_text (group_lines groups.now)) }
{
    let Some((first, others)) = groups.split_first() else {
        return Ok(());
    };
    put_edits(out, first.as_slice())?;
    for group in others {
        put(out, b"then\n")?;
        put_edits(out, group.as_slice())?;
    }
    Ok(())
}

fn put_at(out: &mut Vec<u8>, time: u64, edits: &Edits) -> Result<(), AllocError>
    ensures { OnOk result (out.new.items ≡ out.old.items ++ flat_map line_text (block_lines (Block.At 0 time edits.now))) }
{
    put(out, b"at")?;
    put_number(out, time)?;
    end_line(out)?;
    put_edits(out, edits.as_slice())?;
    put(out, b"end\n")
}

fn put_process(
    out: &mut Vec<u8>,
    name: &Name,
    every: u64,
    count: u32,
    groups: &Groups,
) -> Result<(), AllocError>
    ensures { OnOk result (out.new.items ≡ out.old.items ++ flat_map line_text (block_lines (Block.Process 0 name.now every count groups.now))) }
{
    put(out, b"process")?;
    put_word(out, name.bytes())?;
    put_word(out, b"every")?;
    put_number(out, every)?;
    put_word(out, b"count")?;
    put_number(out, u64::from(count))?;
    end_line(out)?;
    put_groups(out, groups.as_slice())?;
    put(out, b"end\n")
}

fn put_block(out: &mut Vec<u8>, block: &Block) -> Result<(), AllocError>
    ensures { OnOk result (out.new.items ≡ out.old.items ++ flat_map line_text (block_lines block.now)) }
{
    match block {
        Block::At { time, edits, .. } => put_at(out, *time, edits),
        Block::Process {
            name,
            every,
            count,
            groups,
            ..
        } => put_process(out, name, *every, *count, groups),
    }
}

fn put_blocks(out: &mut Vec<u8>, blocks: &[Block]) -> Result<(), AllocError>
    ensures { OnOk result (out.new.items ≡ out.old.items ++ flat_map line_text (flat_map block_lines blocks.now)) }
{
    for block in blocks {
        put_block(out, block)?;
    }
    Ok(())
}

fn put_script(out: &mut Vec<u8>, script: &Script) -> Result<(), AllocError>
    ensures { OnOk result (out.new.items ≡ out.old.items ++ plain script.now) }
{
    put_edits(out, script.start.as_slice())?;
    put_blocks(out, script.blocks.as_slice())
}

/// The plain text of a lawful script: its edits outside blocks, then its blocks, a statement a line. Words are parted by one
/// space, and each line ends with a line feed. The only error is want of memory.
pub fn print_script(alloc: Global, script: &Script) -> Result<Bytes, Memory>
    requires { IsLawful script.now }
    ensures { IfOk result (λ text. text ≡ plain script.now) }
{
    let mut out = Vec::new(alloc);
    put_script(&mut out, script)?;
    Ok(Bytes::from_vec(out))
}
