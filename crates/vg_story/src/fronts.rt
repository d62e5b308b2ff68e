//! The front of a frame, where its headers stand.
ghost use Rattle.std.specs.Prelude.{◌≡◌};
ghost use Rattle.vg_story.specs.Fronts.{front_of};

use arrayvec::ArrayVec;
use std::marker::Model;
use vg_pool::Buffer;

/// How many bytes of a frame are looked at: an Ethernet header, and the longest IPv4 header.
const FRONT: usize = 74;

/// The first bytes of a frame, all that its headers may have, and how many bytes it has in all.
#[derive(Drop)]
pub struct Front {
    bytes: ArrayVec<u8, 74>,
    len: u32,
}

impl Model for Front {
    ghost use Rattle.vg_story.specs.Fronts.{Front as Shown};

    ghost Value = { Shown };

    ghost view = { λ f. record { bytes = f.bytes.items; len = f.len } };
}

impl Front {
    // That of a packet.
    pub(crate) fn of(buffer: &Buffer) -> Front
        ensures { result ≡ front_of buffer.now.packet }
    {
        let head = buffer.head();
        let mut bytes = ArrayVec::new();
        let Ok(()) = bytes.try_extend_from_slice(&head[..FRONT.min(head.len())]) else {
            unreachable!()
        };
        Front {
            bytes,
            len: buffer.len(),
        }
    }

    // The bytes that are there.
    pub(crate) fn bytes(&self) -> &[u8]
        ensures { result.now ≡ self.now.bytes }
    {
        self.bytes.as_slice()
    }

    // How many bytes the frame has.
    pub(crate) fn len(&self) -> u32
        ensures { result ≡ self.now.len }
    {
        self.len
    }
}
