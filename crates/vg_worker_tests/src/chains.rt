//! Packets over several buffers.
ghost use Rattle.std.specs.Prelude.{◌≡◌, ◌+◌, ◌≤◌, true};
ghost use Rattle.std.specs.Bool.{OnTrue};
ghost use Rattle.vg_model.specs.PoolBook.{pieces_of};
ghost use Rattle.vg_model.specs.Tag as tags;
ghost use Rattle.vg_pool.specs.Contents.{nothing};

use crate::checks::{has_length, holds, same};
use std::alloc::Global;
use std::marker::Brand;
use std::process::Abort;
use std::sync::Wait;
use std::sync::ledger::{Blank, Ledger};
use vg_model::Leg;
use vg_pool::{Buffer, Cache, LockedPool, Pool, PoolLedger};

// A chain for a packet of 9,216 bytes.
fn take_one<T: PoolLedger, G: Ledger, R: Abort>(rt: &R, cache: &mut Cache<T, G>) -> Buffer
    requires { cache.old.allocated ≤ 1000 }
    ensures { (cache.new.allocated ≡ cache.old.allocated + 5) × (cache.new.freed ≡ cache.old.freed) }
{
    cache.alloc(9216).expect(rt, "a chain")
}

// Six of them.
fn take_six<T: PoolLedger, G: Ledger, R: Abort>(
    rt: &R,
    cache: &mut Cache<T, G>,
    chains: &mut Vec<Buffer>,
)
    requires { cache.old.allocated ≤ 900 }
    ensures { (cache.new.allocated ≡ cache.old.allocated + 30) × (cache.new.freed ≡ cache.old.freed) }
{
    chains.push(take_one(rt, cache)).expect(rt, "memory");
    chains.push(take_one(rt, cache)).expect(rt, "memory");
    chains.push(take_one(rt, cache)).expect(rt, "memory");
    chains.push(take_one(rt, cache)).expect(rt, "memory");
    chains.push(take_one(rt, cache)).expect(rt, "memory");
    chains.push(take_one(rt, cache)).expect(rt, "memory");
}

// The chain that was taken last comes back, all five buffers of it.
fn give_one<T: PoolLedger, G: Ledger, R: Abort>(
    rt: &R,
    cache: &mut Cache<T, G>,
    chains: &mut Vec<Buffer>,
)
    requires { cache.old.freed ≤ 1000 }
    ensures { (cache.new.freed ≡ cache.old.freed + 5) × (cache.new.allocated ≡ cache.old.allocated) }
{
    let chain = chains.pop().expect(rt, "a chain");
    has_length(rt, chain.pieces() as usize, 5);
    let before = cache.len();
    holds(rt, before <= 251);
    cache.free(chain);
    same(rt, cache.len(), before + 5);
}

// Five of them come back.
fn give_five<T: PoolLedger, G: Ledger, R: Abort>(
    rt: &R,
    cache: &mut Cache<T, G>,
    chains: &mut Vec<Buffer>,
)
    requires { cache.old.freed ≤ 900 }
    ensures { (cache.new.freed ≡ cache.old.freed + 25) × (cache.new.allocated ≡ cache.old.allocated) }
{
    give_one(rt, cache, chains);
    give_one(rt, cache, chains);
    give_one(rt, cache, chains);
    give_one(rt, cache, chains);
    give_one(rt, cache, chains)
}

// All 25 come back.
fn give_all<T: PoolLedger, G: Ledger, R: Abort>(
    rt: &R,
    cache: &mut Cache<T, G>,
    mut chains: Vec<Buffer>,
)
    requires { cache.old.freed ≡ 0 }
    ensures { (cache.new.freed ≡ 125) × (cache.new.allocated ≡ cache.old.allocated) }
{
    give_five(rt, cache, &mut chains);
    give_five(rt, cache, &mut chains);
    give_five(rt, cache, &mut chains);
    give_five(rt, cache, &mut chains);
    give_five(rt, cache, &mut chains);
    holds(rt, chains.is_empty());
}

// A pool of 300 with one cache: packets of 9,216 bytes take five buffers each, and none where the cache has three.
fn chained<T: PoolLedger, G: Ledger, R: Abort + Wait>(
    rt: &R,
    alloc: Global,
    taken: Blank,
    given: Blank,
)
    requires total { T.total ≡ 300 }
    requires taken { (taken.name ≡ T.name) × (taken.parts ≡ T.parts) × (taken.parts ≡ 1) }
    requires given { (given.name ≡ G.name) × (given.parts ≡ G.parts) × (given.parts ≡ 1) }
{
    let (pool, mut caches) = Pool::<T, G>::new(alloc, 300, 1, taken, given).expect(rt, "memory");
    let pool = LockedPool::new(pool);
    let mut cache: Cache<T, G> = caches.pop().expect(rt, "a cache");
    same(rt, pool.refill(rt, &mut cache), 128);
    let mut chains = Vec::new(alloc);
    chains.push(take_one(rt, &mut cache)).expect(rt, "memory");
    same(rt, cache.len(), 123);
    take_six(rt, &mut cache, &mut chains);
    take_six(rt, &mut cache, &mut chains);
    take_six(rt, &mut cache, &mut chains);
    take_six(rt, &mut cache, &mut chains);
    same(rt, cache.len(), 3);
    holds(rt, cache.alloc(9216).is_none());
    same(rt, cache.len(), 3);
    same(rt, pool.refill(rt, &mut cache), 128);
    same(rt, cache.len(), 131);
    give_all(rt, &mut cache, chains);
    same(rt, cache.len(), 256);
    caches.push(cache).expect(rt, "memory");
    let pool = pool.close(caches);
    same(rt, pool.len(), 300);
}

// The same under ledgers of its own.
fn chained_anew<R: Abort + Wait>(rt: &R, alloc: Global) {
    chained::<Brand, Brand, R>(rt, alloc, Blank::new(1), Blank::new(1))
}

#[test]
fn long_packets_take_five_buffers_each(rt: HostRuntime) {
    chained_anew(&rt, rt.alloc())
}

// A chain of a pool, for a packet of so many bytes.
fn chain<T: PoolLedger, G: Ledger, R: Abort>(
    rt: &R,
    alloc: Global,
    bytes: u32,
    taken: Blank,
    given: Blank,
) -> Buffer
    requires total { T.total ≡ 300 }
    requires taken { (taken.name ≡ T.name) × (taken.parts ≡ T.parts) × (taken.parts ≡ 1) }
    requires given { (given.name ≡ G.name) × (given.parts ≡ G.parts) × (given.parts ≡ 1) }
    ensures { result ≡ nothing (pieces_of bytes) }
{
    let (mut pool, mut caches) = Pool::<T, G>::new(alloc, 300, 1, taken, given).expect(
        rt, "memory",
    );
    let mut cache: Cache<T, G> = caches.pop().expect(rt, "a cache");
    pool.take(10, &mut cache);
    cache.alloc(bytes).expect(rt, "a chain")
}

// The same under ledgers of its own.
fn chain_anew<R: Abort>(rt: &R, alloc: Global, bytes: u32) -> Buffer
    ensures { result ≡ nothing (pieces_of bytes) }
{
    chain::<Brand, Brand, R>(rt, alloc, bytes, Blank::new(1), Blank::new(1))
}

// Bytes that differ from their neighbors.
fn pattern(rt: &impl Abort, alloc: Global, count: u32) -> Vec<u8> {
    let mut bytes = Vec::new(alloc);
    for i in 0..count {
        bytes.push((i % 251) as u8).expect(rt, "memory");
    }
    bytes
}

// The packet of number 9 and these bytes, as it is received into a chain of its own.
fn received(rt: &impl Abort, alloc: Global, bytes: &[u8]) -> Buffer {
    holds(rt, bytes.len() <= 10_000);
    let mut buffer = chain_anew(rt, alloc, bytes.len() as u32);
    buffer.fill(9, bytes);
    buffer
}

// The parts of a packet, joined.
fn joined(rt: &impl Abort, alloc: Global, buffer: &Buffer) -> Vec<u8> {
    let mut bytes = Vec::new(alloc);
    for k in 0..buffer.pieces() {
        bytes
            .extend_from_slice(buffer.piece(k))
            .expect(rt, "memory");
    }
    bytes
}

// The bytes of a packet, copied behind two others.
fn copied(rt: &impl Abort, alloc: Global, buffer: &Buffer) -> Vec<u8> {
    let mut bytes = Vec::with_capacity(alloc, buffer.len() as usize + 2).expect(rt, "memory");
    bytes.push(1).expect(rt, "memory");
    bytes.push(2).expect(rt, "memory");
    buffer.copy_into(&mut bytes);
    bytes
}

// A packet of so many bytes goes into as many buffers as it takes, and comes out again. The last of them has so many of its bytes.
fn goes_in_and_out(rt: &impl Abort, alloc: Global, count: u32, pieces: u32, last: usize) {
    let bytes = pattern(rt, alloc, count);
    let buffer = received(rt, alloc, bytes.as_slice());
    same(rt, buffer.number(), 9);
    same(rt, buffer.len(), count);
    same(rt, buffer.room(), 64);
    holds(rt, buffer.pieces() == pieces && pieces > 0);
    holds(
        rt,
        joined(rt, alloc, &buffer).as_slice() == bytes.as_slice(),
    );
    same(
        rt,
        copied(rt, alloc, &buffer).as_slice().get(2..),
        Some(bytes.as_slice()),
    );
    holds(rt, buffer.head() == buffer.piece(0));
    same(rt, buffer.piece(pieces - 1).len(), last);
}

#[test]
fn packets_of_all_sizes_go_into_their_chains(rt: HostRuntime) {
    goes_in_and_out(&rt, rt.alloc(), 0, 1, 0);
    goes_in_and_out(&rt, rt.alloc(), 60, 1, 60);
    goes_in_and_out(&rt, rt.alloc(), 2048, 1, 2048);
    goes_in_and_out(&rt, rt.alloc(), 2049, 2, 1);
    goes_in_and_out(&rt, rt.alloc(), 4096, 2, 2048);
    goes_in_and_out(&rt, rt.alloc(), 4097, 3, 1);
    goes_in_and_out(&rt, rt.alloc(), 6145, 4, 1);
    goes_in_and_out(&rt, rt.alloc(), 8193, 5, 1);
    goes_in_and_out(&rt, rt.alloc(), 9216, 5, 1024)
}

#[test]
fn a_packet_that_is_too_long_keeps_its_number_alone(rt: HostRuntime) {
    let bytes = pattern(&rt, rt.alloc(), 9217);
    let buffer = received(&rt, rt.alloc(), bytes.as_slice());
    same(&rt, buffer.pieces(), 1);
    same(&rt, buffer.number(), 9);
    same(&rt, (buffer.len(), buffer.room()), (0, 64));
    holds(&rt, buffer.head().is_empty());
}

// A packet of so many bytes is laid into a chain of five, with so much room. Its head has so many of them.
fn is_laid(rt: &impl Abort, alloc: Global, room: u32, count: u32, head: usize) {
    let mut buffer = chain_anew(rt, alloc, 9216);
    let bytes = pattern(rt, alloc, count);
    holds(rt, room <= 128 && bytes.len() + room as usize <= 9280);
    buffer.lay(9, room, bytes.as_slice());
    same(rt, buffer.number(), 9);
    same(rt, (buffer.room(), buffer.len()), (room, count));
    same(rt, buffer.pieces(), 5);
    same(rt, buffer.head().len(), head);
    holds(
        rt,
        joined(rt, alloc, &buffer).as_slice() == bytes.as_slice(),
    );
}

#[test]
fn packets_are_laid_with_any_room(rt: HostRuntime) {
    is_laid(&rt, rt.alloc(), 0, 9280, 2112);
    is_laid(&rt, rt.alloc(), 4, 60, 60);
    is_laid(&rt, rt.alloc(), 64, 2049, 2048);
    is_laid(&rt, rt.alloc(), 128, 9152, 1984);
    is_laid(&rt, rt.alloc(), 128, 0, 0)
}

// Puts a tag of VLAN 200 in.
fn put_tag(rt: &impl Abort, buffer: &mut Buffer) {
    holds(rt, buffer.len() >= 14);
    holds(rt, buffer.room() >= 4);
    buffer.tag(200);
}

// The packet has a tag.
fn is_tagged(buffer: &Buffer) -> bool
    ensures { OnTrue result (tags.is_tagged buffer.now.packet ≡ true) }
{
    let head = buffer.head();
    buffer.len() >= 18 && head[12] == 0x81 && head[13] == 0x00
}

// Removes the tag.
fn cut_tag(rt: &impl Abort, buffer: &mut Buffer) {
    holds(rt, is_tagged(buffer));
    holds(rt, buffer.room() <= 124);
    buffer.cut();
}

// Puts a tag in and removes it again, in a packet of so many bytes.
fn tags(rt: &impl Abort, alloc: Global, count: u32) {
    let bytes = pattern(rt, alloc, count);
    let mut buffer = received(rt, alloc, bytes.as_slice());
    let pieces = buffer.pieces();
    let leg = Leg {
        worker: 1,
        generation: 2,
    };
    holds(rt, buffer.legs().is_empty());
    buffer.add_leg(leg);
    buffer.set_interface(3);
    put_tag(rt, &mut buffer);
    same(rt, buffer.room(), 60);
    holds(rt, count <= 9216);
    same(rt, buffer.len(), count + 4);
    let whole = joined(rt, alloc, &buffer);
    let (whole, bytes) = (whole.as_slice(), bytes.as_slice());
    same(rt, whole.len(), bytes.len() + 4);
    holds(rt, whole.get(..12) == bytes.get(..12));
    holds(
        rt,
        whole.get(12..16) == Some([0x81, 0x00, 0x00, 0xc8].as_slice()),
    );
    holds(rt, whole.get(16..) == bytes.get(12..));
    holds(rt, buffer.legs() == [leg].as_slice());
    same(rt, buffer.interface(), Some(3));
    same(rt, buffer.pieces(), pieces);

    cut_tag(rt, &mut buffer);
    same(rt, buffer.room(), 64);
    same(rt, buffer.len(), count);
    holds(rt, joined(rt, alloc, &buffer).as_slice() == bytes);
}

#[test]
fn a_tag_is_put_in_and_removed(rt: HostRuntime) {
    tags(&rt, rt.alloc(), 14);
    tags(&rt, rt.alloc(), 60);
    tags(&rt, rt.alloc(), 2048);
    tags(&rt, rt.alloc(), 2049);
    tags(&rt, rt.alloc(), 9216)
}

// Sixteen tags go into a packet of so many bytes, as many as it has room for, and come out again; and sixteen more that it was received with,
// after which it has all the room that a packet may have.
fn tags_to_the_end(rt: &impl Abort, alloc: Global, count: u32) {
    holds(rt, count <= 9140);
    let mut bytes = pattern(rt, alloc, 12);
    for _ in 0..16 {
        bytes
            .extend_from_slice(&[0x81, 0x00, 0x00, 0x64])
            .expect(rt, "memory");
    }
    bytes
        .extend_from_slice(pattern(rt, alloc, count).as_slice())
        .expect(rt, "memory");
    let mut buffer = received(rt, alloc, bytes.as_slice());
    for i in 0..16 {
        put_tag(rt, &mut buffer);
        same(rt, buffer.room(), 60 - 4 * i);
    }
    same(rt, (buffer.room(), buffer.len()), (0, 12 + 64 + count + 64));
    for i in 0..32 {
        cut_tag(rt, &mut buffer);
        same(rt, buffer.room(), 4 * (i + 1));
    }
    same(rt, (buffer.room(), buffer.len()), (128, 12 + count));
    same(rt, buffer.head().len(), 1984);
    let whole = joined(rt, alloc, &buffer);
    holds(rt, whole.as_slice().get(..12) == bytes.as_slice().get(..12));
    holds(rt, whole.as_slice().get(12..) == bytes.as_slice().get(76..));
}

#[test]
fn sixteen_tags_go_in_and_thirty_two_come_out(rt: HostRuntime) {
    tags_to_the_end(&rt, rt.alloc(), 2000);
    tags_to_the_end(&rt, rt.alloc(), 9140)
}
