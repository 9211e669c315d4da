// Entries of names and bytes, of which the first of a name counts.
ghost use Rattle.std.specs.Prelude.{◌≡◌, ◌≤◌, ◌<◌, ◌∷◌, [], length, option_map, OnOk, OnErr, IsErrOf};
ghost use Rattle.gd_base.specs.Limits.{FILE_BYTES};
ghost use Rattle.gd_world.specs.Shelf.{held};

use crate::LoadFault;
use gd_base::limits::FILE_BYTES;
use gd_base::{Memory, Name2};

/// What the first entry of the name holds.
pub(crate) fn first_of<'a>(entries: &'a [(Name2, Vec<u8>)], name: &[u8]) -> Option<&'a Vec<u8>>
    ensures { option_map (λ v. v.now.items) result ≡ held entries.now name.now }
{
    for entry in entries {
        if entry.0.bytes() == name {
            return Some(&entry.1);
        }
    }
    None
}

/// Puts an entry before all others, so that the name holds its bytes.
pub(crate) fn put_first(
    entries: &mut Vec<(Name2, Vec<u8>)>,
    name: Name2,
    bytes: Vec<u8>,
) -> Result<(), Memory>
    ensures first { OnOk result (entries.new.items ≡ (name, bytes) ∷ entries.old.items) }
    ensures err { OnErr result (entries.new.items ≡ entries.old.items) }
{
    entries.insert(0, (name, bytes))?;
    Ok(())
}

/// Copies what a name holds, if it isn't too long.
pub(crate) fn copy_held(bytes: &[u8], into: &mut Vec<u8>) -> Result<(), LoadFault>
    requires { into.old.items ≡ [] }
    ensures bytes { OnOk result (into.new.items ≡ bytes.now) }
    ensures short { OnOk result (length into.new.items ≤ FILE_BYTES) }
    ensures long { IsErrOf result LoadFault.TooLong → FILE_BYTES < length bytes.now }
    ensures sure { ¬ IsErrOf result LoadFault.Failed }
    ensures refused { OnErr result (into.new.items ≡ []) }
{
    if bytes.len() > FILE_BYTES {
        return Err(LoadFault::TooLong);
    }
    Ok(into.extend_from_slice(bytes)?)
}
