//! The entries of the first two levels of the trie, two bytes each.
ghost use Rattle.std.specs.Prelude.{◌≡◌, ◌<◌};
ghost use Rattle.vg_fib.specs.Entries.{IsShort};

use std::marker::Model;

// What stands at a place of the first or the second level.
#[derive(Clone, Copy)]
pub(crate) enum Entry {
    // All addresses here have the route of this number, or none where it is 0.
    Leaf(u16),
    // The number of the table that the next byte of the address is looked up in.
    Child(u16),
}

// The highest bit, which is set where an entry is a child. Its number is in the other 15 bits.
const IS_CHILD: u16 = 0x8000;

// An entry in two bytes. It is seen as the entry.
#[derive(Clone, Copy)]
pub(crate) struct Packed {
    word: u16,
}

impl Model for Packed {
    ghost use Rattle.vg_fib.specs.declared.entries.Entry.{Entry};
    ghost use Rattle.vg_fib.specs.Entries.{entry_of, word_of, word_kept};

    ghost Value = { Entry };

    ghost view = { λ packed. entry_of packed.word };

    ghost inverse = { λ entry. record { word = word_of entry } };

    ghost inverse_ok = { λ packed h i. record { word = word_kept packed.word i } };
}

impl Packed {
    // The leaf of this number.
    #[inline]
    pub(crate) fn leaf(number: u16) -> Packed
        requires { number < 32768 }
        ensures { result ≡ Entry.Leaf number }
    {
        Packed { word: number }
    }

    // The child of this number.
    #[inline]
    pub(crate) fn child(number: u16) -> Packed
        requires { number < 32768 }
        ensures { result ≡ Entry.Child number }
    {
        Packed {
            word: IS_CHILD + number,
        }
    }

    // Which entry it is.
    #[inline]
    pub(crate) fn entry(self) -> Entry
        ensures entry { result ≡ self }
        ensures short { IsShort result }
    {
        if self.word < IS_CHILD {
            Entry::Leaf(self.word)
        } else {
            Entry::Child(self.word - IS_CHILD)
        }
    }
}
