//! What a route leads over: adjacencies by their numbers, and by their names.
ghost use Rattle.std.specs.Prelude.{◌≡◌, ◌≤◌, ◌<◌, ◌↔◌, [], ◌∷◌, ◌++◌, length, vec_len, IsSome, IfSome};
ghost use Rattle.vg_model.specs.Members.{AreMembers, member as picked};

use crate::limits::MOST_MEMBERS;
use crate::names::Name;
use std::fmt;
use std::marker::Model;

/// The numbers of 1 to 16 adjacencies, in order; one may stand several times. They lie in the value itself.
#[derive(Clone, Copy)]
pub struct Members {
    // In front of the numbers, so that a list of one number is in the first bytes.
    count: u8,
    // Behind the numbers of the list all are 0.
    places: [u16; 16],
}

impl Model for Members {
    ghost use Rattle.std.specs.Prelude.{ℕ, ◌-◌, List, ◌++◌, length, take, replicate};
    ghost use Rattle.vg_model.specs.Members.{AreInline, most_members, taken_count, taken_places};

    ghost Value = { List ℕ };

    ghost view = { λ m. take m.count m.places };

    ghost invariant = { λ m. AreInline m.count m.places };

    ghost inverse = { λ l. record { count = length l; places = l ++ replicate (most_members - length l) 0 } };

    ghost inverse_ok = { λ m h i. record { count = taken_count m.count m.places h i; places = taken_places m.count m.places h i } };
}

impl Members {
    /// This adjacency alone.
    pub fn one(number: u16) -> Members
        ensures { result ≡ number ∷ [] }
    {
        let mut places = [0; 16];
        places[0] = number;
        Members { count: 1, places }
    }

    /// The list of these numbers; `None` where there is none, or where there are more than 16.
    pub fn of(numbers: &[u16]) -> Option<Members>
        ensures some { IsSome result ↔ AreMembers numbers.now }
        ensures list { IfSome result (λ members. members ≡ numbers.now) }
    {
        let (first, others) = numbers.split_first()?;
        if others.len() >= MOST_MEMBERS {
            return None;
        }
        let mut members = Members::one(*first);
        for number in others {
            members.push(*number);
        }
        Some(members)
    }

    /// One more number behind the others.
    pub fn push(&mut self, number: u16)
        requires { length self.old < 16 }
        ensures { self.new ≡ self.old ++ number ∷ [] }
    {
        self.places[self.count as usize] = number;
        self.count += 1;
    }

    /// The numbers as a slice.
    pub fn as_slice(&self) -> &[u16]
        ensures numbers { result.now ≡ self.now }
        ensures members { AreMembers result.now }
    {
        &self.places[..self.count as usize]
    }

    /// The number that a hash picks.
    pub fn member(&self, hash: u32) -> u16
        ensures { result ≡ picked self.now hash }
    {
        let place = hash / 8 % u32::from(self.count);
        self.places[place as usize]
    }
}

impl PartialEq for Members {
    ghost use Rattle.std.specs.Prelude.{bytes_eq};
    ghost use Rattle.std.specs.Cmp.{partial_equiv_from_equiv};
    ghost use Rattle.std.specs.Cmp.Lexicographic.{nat_list_eq_equiv};

    ghost eq = { bytes_eq };

    ghost laws = { partial_equiv_from_equiv nat_list_eq_equiv };

    fn eq(&self, other: &Members) -> bool {
        self.as_slice() == other.as_slice()
    }
}

impl Eq for Members {
    ghost use Rattle.std.specs.Cmp.Lexicographic.{nat_list_eq_equiv};

    ghost laws = { nat_list_eq_equiv };
}

impl fmt::Debug for Members {
    fn fmt<W: fmt::Write>(&self, f: &mut fmt::Formatter<W>) -> fmt::Result {
        fmt::Debug::fmt(&self.as_slice(), f)
    }
}

/// The names of 1 to 16 adjacencies, in order; one may stand several times.
#[derive(Drop)]
pub struct Names(Vec<Name>);

impl Model for Names {
    ghost use Rattle.std.specs.Prelude.{List, ℕ};
    ghost use Rattle.vg_model.specs.Members.{AreMembers};

    ghost Value = { List (List ℕ) };

    ghost view = { λ n. n.0.items };

    ghost invariant = { λ n. AreMembers n.0.items };
}

impl Names {
    /// The list of these names.
    pub fn from_vec(names: Vec<Name>) -> Names
        requires some { 1 ≤ vec_len names }
        requires few { vec_len names ≤ 16 }
        ensures { result ≡ names.items }
    {
        Names(names)
    }

    /// The names as a slice.
    pub fn as_slice(&self) -> &[Name]
        ensures names { result.now ≡ self.now }
        ensures members { AreMembers result.now }
    {
        self.0.as_slice()
    }

    /// The names as a vector.
    pub fn into_vec(self) -> Vec<Name>
        ensures names { result.items ≡ self }
        ensures members { AreMembers result.items }
    {
        self.0
    }
}
