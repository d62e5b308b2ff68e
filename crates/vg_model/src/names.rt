//! Names of nodes, interfaces and adjacencies, and link-layer addresses.
ghost use Rattle.std.specs.Prelude.{◌≡◌, IsTrue, IsSome, IfSome, ◌↔◌};
ghost use Rattle.vg_model.specs.Name.{IsName, is_name_byte as name_byte};

use arrayvec::ArrayString;
use std::alloc::AllocError;
use std::marker::Model;
use std::{fmt, str};

/// The name of a node, an interface or an adjacency: 1 to 32 letters, digits, `-`, `_` and `.`.
#[derive(Drop)]
pub struct Name(ArrayString<32>);

impl Model for Name {
    ghost use Rattle.std.specs.Prelude.{List, ℕ};
    ghost use Rattle.vg_model.specs.Name.{IsName};

    ghost Value = { List ℕ };

    ghost view = { λ n. n.0.bytes };

    ghost invariant = { λ n. IsName n.0.bytes };
}

fn is_name_byte(byte: u8) -> bool
    ensures { result ≡ name_byte byte }
{
    byte.is_ascii_alphanumeric() || byte == b'-' || byte == b'_' || byte == b'.'
}

fn is_name(bytes: &[u8]) -> bool
    ensures { IsTrue result ↔ IsName bytes.now }
{
    !bytes.is_empty() && bytes.len() <= 32 && bytes.iter().all(|b| is_name_byte(*b))
}

impl Name {
    /// The name of these bytes, where they are one.
    pub fn of(bytes: &[u8]) -> Option<Name>
        ensures some { IsSome result ↔ IsName bytes.now }
        ensures name { IfSome result (λ n. n ≡ bytes.now) }
    {
        if !is_name(bytes) {
            return None;
        }
        match str::from_utf8(bytes) {
            Ok(text) => match ArrayString::from(text) {
                Ok(text) => Some(Name(text)),
                Err(_) => None,
            },
            Err(_) => None,
        }
    }

    /// The same name once more. It takes no memory.
    pub fn copied(&self) -> Name
        ensures same { result ≡ self.now }
        ensures name { IsName result }
    {
        Name(self.0)
    }

    /// The name as text.
    pub fn as_str(&self) -> &str
        ensures { result.now ≡ self.now }
    {
        self.0.as_str()
    }

    /// The bytes of the name.
    pub fn bytes(&self) -> &[u8]
        ensures bytes { result.now ≡ self.now }
        ensures name { IsName result.now }
    {
        self.0.as_str().as_bytes()
    }
}

impl PartialEq for Name {
    ghost use Rattle.std.specs.Prelude.{bytes_eq};
    ghost use Rattle.std.specs.Cmp.{partial_equiv_from_equiv};
    ghost use Rattle.std.specs.Cmp.Lexicographic.{nat_list_eq_equiv};

    ghost eq = { bytes_eq };

    ghost laws = { partial_equiv_from_equiv nat_list_eq_equiv };

    fn eq(&self, other: &Name) -> bool {
        self.bytes() == other.bytes()
    }
}

impl Eq for Name {
    ghost use Rattle.std.specs.Cmp.Lexicographic.{nat_list_eq_equiv};

    ghost laws = { nat_list_eq_equiv };
}

impl Clone for Name {
    ghost use Rattle.std.specs.Prelude.{◌≡◌, ⊤};

    ghost is_clone = { λ name copy. copy ≡ name };

    ghost is_infallible = { λ _. ⊤ };

    fn clone(&self) -> Result<Name, AllocError> {
        Ok(Name(self.0))
    }
}

impl fmt::Debug for Name {
    fn fmt<W: fmt::Write>(&self, f: &mut fmt::Formatter<W>) -> fmt::Result {
        fmt::Debug::fmt(&self.0, f)
    }
}

impl fmt::Display for Name {
    ghost use Rattle.std.specs.Prelude.{Some};

    ghost output = { λ name. Some name };

    fn fmt<W: fmt::Write>(&self, f: &mut fmt::Formatter<W>) -> fmt::Result {
        f.pad(self.0.as_str())
    }
}

/// A link-layer address, in the order of transmission.
#[derive(Clone, Copy, Debug, PartialEq, Eq)]
pub struct Mac(pub [u8; 6]);
