// Whole streams, by reads and writes that may each take less than all.
ghost use Rattle.std.specs.Prelude.{◌≡◌, ◌≤◌, ◌<◌, ◌+◌, ℕ, List, Option, [], length, take, OnOk, IfOk, IfSome, IsErrOf};
ghost use Rattle.std.specs.Prelude.{IsTrue};
ghost use Rattle.std.specs.Io.KnownBytes.{Appends, Consumes, IsAtEnd};
ghost use Rattle.gd_base.specs.Limits.{FILE_BYTES};

use crate::LoadFault;
use gd_base::limits::FILE_BYTES;
use std::alloc::{AllocError, Global};
use std::io::{ErrorKind, Read, Write};

// The most bytes of one read.
const PIECE: usize = 65_536;

// How often a read or a write is begun where signals interrupt it.
const TRIES: u32 = 64;

// One read, begun anew where a signal interrupts it. None is a fault.
fn read_some<F: Read>(from: &mut F, piece: &mut [u8]) -> Option<usize>
    ensures bound { IfSome result (λ count. count ≤ length piece.new) }
    ensures bytes { IfSome result (λ count. Consumes (F.remaining from.old) (F.remaining from.new)
        (take count piece.new)) }
    ensures end { IfSome result (λ count. count ≡ 0 → 0 < length piece.old → IsAtEnd (F.remaining from.new)) }
{
    for _ in 0..TRIES {
        match from.read(piece) {
            Ok(count) => return Some(count),
            Err(e) if e.kind() == ErrorKind::Interrupted => {}
            Err(_) => return None,
        }
    }
    None
}

// One write, begun anew where a signal interrupts it. None is a fault.
fn write_some<F: Write>(to: &mut F, piece: &[u8]) -> Option<usize>
    ensures bound { IfSome result (λ count. count ≤ length piece.now) }
    ensures bytes { IfSome result (λ count. Appends (F.contents to.old) (F.contents to.new) (take count piece.now)) }
{
    for _ in 0..TRIES {
        match to.write(piece) {
            Ok(count) => return Some(count),
            Err(e) if e.kind() == ErrorKind::Interrupted => {}
            Err(_) => return None,
        }
    }
    None
}

// How many bytes the next read may take, so that at most one is read past the longest file.
fn room_after(taken: usize, most: usize) -> usize
    requires taken { taken ≤ FILE_BYTES }
    requires most { 0 < most }
    ensures some { 0 < result }
    ensures within { result ≤ most }
    ensures last { taken + result ≤ 134217729 }
{
    most.min(FILE_BYTES + 1 - taken)
}

// Appends what one read gives, and says how many bytes that were.
fn append_some<F: Read>(
    from: &mut F,
    piece: &mut [u8],
    into: &mut Vec<u8>,
) -> Result<usize, LoadFault>
    requires piece { 0 < length piece.old }
    requires room { length into.old.items + length piece.old ≤ 134217729 }
    ensures last { length into.new.items ≤ 134217729 }
    ensures count { IfOk result (λ count. length into.new.items ≡ length into.old.items + count) }
    ensures bytes { (all : Option (List ℕ)) → Consumes all (F.remaining from.old) into.old.items
        → OnOk result (Consumes all (F.remaining from.new) into.new.items) }
    ensures end { IfOk result (λ count. count ≡ 0 → IsAtEnd (F.remaining from.new)) }
    ensures reading { ¬ IsErrOf result LoadFault.TooLong }
{
    let Some(count) = read_some(from, piece) else {
        return Err(LoadFault::Failed);
    };
    into.extend_from_slice(&piece[..count])?;
    Ok(count)
}

// Reads to the end by pieces, or until one byte more was read than a file may have.
fn read_pieces<F: Read>(from: &mut F, piece: &mut [u8], into: &mut Vec<u8>) -> Result<(), LoadFault>
    requires piece { 0 < length piece.old }
    requires empty { into.old.items ≡ [] }
    ensures short { OnOk result (length into.new.items ≤ FILE_BYTES) }
    ensures bytes { OnOk result (IfSome (F.remaining from.old) (λ all. into.new.items ≡ all)) }
    ensures long { IsErrOf result LoadFault.TooLong → IfSome (F.remaining from.old) (λ all. FILE_BYTES < length all) }
{
    while into.len() <= FILE_BYTES {
        let room = room_after(into.len(), piece.len());
        if append_some(from, &mut piece[..room], into)? == 0 {
            return Ok(());
        }
    }
    Err(LoadFault::TooLong)
}

// Where a read puts its bytes.
fn new_piece(alloc: Global) -> Result<Vec<u8>, AllocError>
    ensures { IfOk result (λ piece. 0 < length piece.items) }
{
    Vec::from_elem(alloc, 0u8, PIECE)
}

/// Reads to the end, or until one byte more was read than a file may have.
pub(crate) fn read_all<F: Read>(
    alloc: Global,
    from: &mut F,
    into: &mut Vec<u8>,
) -> Result<(), LoadFault>
    requires { into.old.items ≡ [] }
    ensures short { OnOk result (length into.new.items ≤ FILE_BYTES) }
    ensures bytes { OnOk result (IfSome (F.remaining from.old) (λ all. into.new.items ≡ all)) }
    ensures long { IsErrOf result LoadFault.TooLong → IfSome (F.remaining from.old) (λ all. FILE_BYTES < length all) }
{
    let mut piece = new_piece(alloc)?;
    read_pieces(from, piece.as_mut_slice(), into)
}

/// Writes all bytes, and says whether that was done. A write that takes nothing is a fault.
pub(crate) fn write_all<F: Write>(to: &mut F, bytes: &[u8]) -> bool
    ensures { IsTrue result → Appends (F.contents to.old) (F.contents to.new) bytes.now }
{
    let mut rest = bytes;
    while !rest.is_empty() {
        match write_some(to, rest) {
            None | Some(0) => return false,
            Some(count) => rest = &rest[count..],
        }
    }
    true
}
