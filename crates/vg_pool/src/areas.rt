//! The bytes of one buffer.
ghost use Rattle.std.specs.Prelude.{◌≡◌, ◌+◌, ◌-◌, ◌≤◌, [], ◌++◌, length, take, drop};
ghost use Rattle.vg_model.specs.Bytes.{overwritten};
ghost use Rattle.vg_model.specs.Tag.{addresses_len, tag_len};
ghost use Rattle.vg_pool.specs.Areas.{Held, area_size};

use std::marker::Model;
use vg_land::Plot;
use vg_model::limits::{BUFFER_SIZE, FIRST_ROOM};

// All the bytes of a buffer: as many of a packet as it has room for, and the room of one as it is received.
pub(crate) const AREA_SIZE: usize = FIRST_ROOM + BUFFER_SIZE;

// How many bytes the two addresses of a frame take, behind which a tag stands.
const ADDRESSES_LEN: usize = 12;

// How many bytes a tag takes.
const TAG_LEN: usize = 4;

/// The bytes of one buffer: those in use, with room in front of them.
#[derive(Drop)]
pub(crate) struct Area {
    // Where the bytes in use begin and end.
    start: usize,
    end: usize,
    // Its bytes as far as they were ever in use, with room for all.
    plot: Plot,
}

impl Model for Area {
    ghost use Rattle.vg_pool.specs.Areas.{Held, held, IsArea};

    ghost Value = { Held };

    ghost view = { held };

    ghost invariant = { IsArea };
}

impl Area {
    /// No bytes in use, and no room.
    pub(crate) fn new(plot: Plot) -> Area
        requires { plot.cap ≡ area_size }
        ensures { result ≡ record { room = 0; bytes = [] } }
    {
        Area {
            start: 0,
            end: 0,
            plot,
        }
    }

    /// How much room is in front.
    pub(crate) fn room(&self) -> usize
        ensures { result ≡ self.now.room }
    {
        self.start
    }

    /// How many bytes are in use.
    pub(crate) fn len(&self) -> usize
        ensures { result ≡ length self.now.bytes }
    {
        self.end - self.start
    }

    /// The bytes in use.
    #[inline]
    pub(crate) fn bytes(&self) -> &[u8]
        ensures { result.now ≡ self.now.bytes }
    {
        &self.plot.as_slice()[self.start..self.end]
    }

    /// Copies these bytes in, with so much room in front.
    #[inline]
    pub(crate) fn fill(&mut self, room: usize, bytes: &[u8])
        requires { room + length bytes.now ≤ area_size }
        ensures { self.new ≡ record { room = room; bytes = bytes.now } }
    {
        self.plot.lay(room, bytes);
        self.start = room;
        self.end = room + bytes.len();
    }

    /// Puts these bytes in place of those that stand from `at` on.
    #[inline]
    pub(crate) fn write(&mut self, at: usize, bytes: &[u8])
        requires { at + length bytes.now ≤ length self.old.bytes }
        ensures { self.new ≡ record self.old { bytes = overwritten self.old.bytes at bytes.now } }
    {
        self.plot.write(self.start + at, bytes);
    }

    /// Removes a tag: the addresses in front of it move up.
    pub(crate) fn cut(&mut self)
        requires { addresses_len + tag_len ≤ length self.old.bytes }
        ensures { self.new ≡ record {
          room = self.old.room + tag_len;
          bytes = take addresses_len self.old.bytes ++ drop (addresses_len + tag_len) self.old.bytes;
        } }
    {
        let mut front = [0; ADDRESSES_LEN];
        front.copy_from_slice(&self.bytes()[..ADDRESSES_LEN]);
        self.write(TAG_LEN, &front);
        self.narrow();
    }

    /// Puts a tag in behind the addresses, which move down.
    pub(crate) fn put_in(&mut self, tag: [u8; TAG_LEN])
        requires long { addresses_len ≤ length self.old.bytes }
        requires room { tag_len ≤ self.old.room }
        ensures { self.new ≡ record {
          room = self.old.room - tag_len;
          bytes = take addresses_len self.old.bytes ++ tag ++ drop addresses_len self.old.bytes;
        } }
    {
        let mut front = [0; ADDRESSES_LEN];
        front.copy_from_slice(&self.bytes()[..ADDRESSES_LEN]);
        self.widen();
        self.write(0, &front);
        self.write(ADDRESSES_LEN, &tag);
    }

    // A tag's bytes fewer at the front.
    fn narrow(&mut self)
        requires { tag_len ≤ length self.old.bytes }
        ensures { self.new ≡ record { room = self.old.room + tag_len; bytes = drop tag_len self.old.bytes } }
    {
        self.start += TAG_LEN;
    }

    // A tag's bytes more at the front, whatever stands there.
    fn widen(&mut self)
        requires { tag_len ≤ self.old.room }
        ensures room { self.new.room ≡ self.old.room - tag_len }
        ensures bytes { drop tag_len self.new.bytes ≡ self.old.bytes }
        ensures len { length self.new.bytes ≡ length self.old.bytes + tag_len }
    {
        self.start -= TAG_LEN;
    }
}
