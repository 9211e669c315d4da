// Names and texts, which contracts see as the list of their bytes.
ghost use Rattle.std.specs.Prelude.{◌≡◌, ◌↔◌, IfOk, IsTrue};
ghost use Rattle.std.specs.Cmp.Lexicographic.{pointwise, nat_list_eq_equiv};
ghost use Rattle.std.specs.Hash as fed;
ghost use Rattle.std.specs.Cmp;
ghost use Rattle.std.specs.Cmp.Rules.{hashing};
ghost use Rattle.std.specs.Prelude.{nat_eq};
ghost use Rattle.std.proofs.Common.{rules};
ghost use Rattle.std.specs.List.{list_all};
ghost use Rattle.gd_base.specs.Names.{is_name, is_name_byte, name_of};

use crate::Memory;
use crate::limits::NAME_BYTES;
use std::alloc::Global;
use std::hash::{Hash, Hasher};
use std::marker::Model;
use std::str;

/// A name of a feature, a datum or a frame: one to 32 ASCII letters, digits, `_` and `-` (`docs/FORMATS.md`).
/// Contracts see the list of its bytes.
#[derive(Debug, Drop)]
pub struct Name(String);

impl Model for Name {
    ghost use Rattle.std.specs.Prelude.{List, ℕ, ◌≡◌, true};
    ghost use Rattle.std.specs.String.{string_bytes};
    ghost use Rattle.gd_base.specs.Names.{is_name};

    ghost Value = { List ℕ };

    ghost view = { λ n. string_bytes n.0 };

    ghost invariant = { λ n. is_name (string_bytes n.0) ≡ true };
}

// Whether a byte may stand in a name.
fn is_byte_of_name(byte: u8) -> bool
    ensures { result ≡ is_name_byte byte }
{
    matches!(byte, b'a'..=b'z' | b'A'..=b'Z' | b'0'..=b'9' | b'_' | b'-')
}

// Whether the bytes are a name.
fn is_spelled(bytes: &[u8]) -> bool
    ensures { result ≡ is_name bytes.now }
{
    0 < bytes.len() && bytes.len() <= NAME_BYTES && are_bytes_of_name(bytes)
}

// Whether each of the bytes may stand in a name.
fn are_bytes_of_name(bytes: &[u8]) -> bool
    ensures { result ≡ list_all is_name_byte bytes.now }
{
    bytes.iter().all(|b| is_byte_of_name(*b))
}

impl Name {
    /// The name that the bytes are. It is none exactly where they are no name.
    pub fn of(alloc: Global, bytes: &[u8]) -> Result<Option<Name>, Memory>
        ensures { IfOk result (λ name. name ≡ name_of bytes.now) }
    {
        if !is_spelled(bytes) {
            return Ok(None);
        }
        match str::from_utf8(bytes) {
            Ok(text) => Ok(Some(Name(String::from_str(alloc, text)?))),
            Err(_) => Ok(None),
        }
    }

    /// The bytes of the name.
    pub fn bytes(&self) -> &[u8]
        ensures { result.now ≡ self.now }
    {
        self.0.as_bytes()
    }

    /// The name as a text.
    pub fn text(&self) -> &str
        ensures { result.now ≡ self.now }
    {
        self.0.as_str()
    }
}

impl PartialEq for Name {
    ghost eq = { pointwise nat_eq };

    ghost laws = { Cmp.partial_equiv_from_equiv nat_list_eq_equiv };

    fn eq(&self, other: &Self) -> bool {
        self.0 == other.0
    }
}

impl Eq for Name {
    ghost laws = { nat_list_eq_equiv };
}

impl Hash for Name {
    ghost hash_input = { λ n. fed.str n };

    ghost respects_eq = { Prim.search (hashing, rules) };

    fn hash<H: Hasher>(&self, state: &mut H) {
        self.0.as_str().hash(state);
    }
}

/// Any text. Contracts see the list of its bytes.
#[derive(Debug, Drop)]
pub struct Name2(String);

impl Model for Name2 {
    ghost use Rattle.std.specs.Prelude.{List, ℕ};
    ghost use Rattle.std.specs.String.{string_bytes};

    ghost Value = { List ℕ };

    ghost view = { λ n. string_bytes n.0 };
}

impl Name2 {
    /// A copy of a text.
    pub fn of(alloc: Global, text: &str) -> Result<Name2, Memory>
        ensures { IfOk result (λ name. name ≡ text.now) }
    {
        Ok(Name2(String::from_str(alloc, text)?))
    }

    /// The bytes of the text.
    pub fn bytes(&self) -> &[u8]
        ensures { result.now ≡ self.now }
    {
        self.0.as_bytes()
    }

    /// The text itself.
    pub fn text(&self) -> &str
        ensures { result.now ≡ self.now }
    {
        self.0.as_str()
    }
}

#[cfg(test)]
mod tests {
    use super::*;

    #[test]
    fn names(rt: HostRuntime) -> Result<(), Memory> {
        let cases = [
            ("a", true),
            ("Hole_1-a", true),
            ("abcdefghijklmnopqrstuvwxyz012345", true),
            ("abcdefghijklmnopqrstuvwxyz0123456", false),
            ("", false),
            ("a b", false),
            ("a#1", false),
            ("\u{e4}", false),
        ];
        for (text, is_name) in cases {
            let name = Name::of(rt.alloc(), text.as_bytes())?;
            assert_eq!(rt; name.is_some(), is_name, "{text}");
        }
        Ok(())
    }
}
