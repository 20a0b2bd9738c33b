//! The whole of a file.
ghost use Rattle.std.specs.Prelude.{◌≡◌, ◌<◌, ◌≤◌, ◌^◌, ◌+◌, List, ℕ, length, vec_len, IfOk};
ghost use Rattle.std.specs.Prelude.{IsErrOf};
ghost use Rattle.text_rules.specs.Outside.{HasRisen, Continues, IfTold};

use crate::Shelf;
use std::alloc::Global;
use thiserror::Error;

/// Why a file was not read whole.
#[derive(Debug, Drop, Error)]
pub enum ReadAllFault {
    /// A read failed.
    #[error("a read failed")]
    ReadFault,
    /// The file has more bytes than the limit.
    #[error("the file is too long")]
    TooLong,
    /// There was no memory.
    #[error("out of memory")]
    Memory,
}

// A shelf may open its file at each read, so few and large pieces are read.
const CHUNK: usize = 65_536;

/// The whole of a file of at most `limit` bytes. The answer is `ReadFault` only if the count of
/// faults of this name rose, and `TooLong` exactly if the file has more than `limit` bytes. To see
/// that, one byte more than the limit is read.
pub fn read_all<F: Shelf>(
    alloc: Global,
    shelf: &mut F,
    name: &str,
    limit: u64,
) -> Result<Vec<u8>, ReadAllFault>
    requires { limit < 2 ^ 32 }
    ensures whole { IfOk result
        (λ bytes. IfTold ((F.state shelf.old).held name.now) (λ file. bytes.items ≡ file)) }
    ensures within { IfOk result (λ bytes. vec_len bytes ≤ limit) }
    ensures too_long { IsErrOf result ReadAllFault.TooLong
        → IfTold ((F.state shelf.old).held name.now) (λ file. limit < length file) }
    ensures fault { IsErrOf result ReadAllFault.ReadFault
        → HasRisen ((F.state shelf.old).faults name.now) ((F.state shelf.new).faults name.now) }
    ensures later { (other : List ℕ)
        → (F.state shelf.old).faults other ≤ (F.state shelf.new).faults other }
    ensures keeps { (other : List ℕ)
        → (F.state shelf.new).held other ≡ (F.state shelf.old).held other }
{
    let Ok(mut chunk) = vec![in alloc; 0u8; CHUNK] else {
        return Err(ReadAllFault::Memory);
    };
    read_through(alloc, shelf, name, limit, &mut chunk)
}

// Reads the file piece by piece through the chunk.
fn read_through<F: Shelf>(
    alloc: Global,
    shelf: &mut F,
    name: &str,
    limit: u64,
    chunk: &mut [u8],
) -> Result<Vec<u8>, ReadAllFault>
    requires small { limit < 2 ^ 32 }
    requires room { 0 < length chunk.old }
    ensures whole { IfOk result
        (λ bytes. IfTold ((F.state shelf.old).held name.now) (λ file. bytes.items ≡ file)) }
    ensures within { IfOk result (λ bytes. vec_len bytes ≤ limit) }
    ensures too_long { IsErrOf result ReadAllFault.TooLong
        → IfTold ((F.state shelf.old).held name.now) (λ file. limit < length file) }
    ensures fault { IsErrOf result ReadAllFault.ReadFault
        → HasRisen ((F.state shelf.old).faults name.now) ((F.state shelf.new).faults name.now) }
    ensures later { (other : List ℕ)
        → (F.state shelf.old).faults other ≤ (F.state shelf.new).faults other }
    ensures keeps { (other : List ℕ)
        → (F.state shelf.new).held other ≡ (F.state shelf.old).held other }
{
    let most = limit as usize;
    let mut bytes: Vec<u8> = Vec::new(alloc);
    while bytes.len() <= most {
        let want = chunk.len().min(most + 1 - bytes.len());
        match read_piece(shelf, name, &mut chunk[..want], &mut bytes) {
            Ok(0) => return Ok(bytes),
            Ok(_) => {}
            Err(fault) => return Err(fault),
        }
    }
    Err(ReadAllFault::TooLong)
}

// Puts the next bytes of the file, as many as the shelf gives, after those that are there, and
// gives how many.
fn read_piece<F: Shelf>(
    shelf: &mut F,
    name: &str,
    piece: &mut [u8],
    bytes: &mut Vec<u8>,
) -> Result<usize, ReadAllFault>
    requires small { vec_len bytes.old ≤ 2 ^ 32 }
    requires room { 0 < length piece.old }
    ensures grows { IfOk result
        (λ k. (vec_len bytes.new ≡ vec_len bytes.old + k) × (k ≤ length piece.new)) }
    ensures told { IfOk result
        (λ k. IfTold ((F.state shelf.old).held name.now)
        (λ file. Continues file bytes.old.items bytes.new.items k)) }
    ensures no_limit { IsErrOf result ReadAllFault.TooLong → ⊥ }
    ensures fault { IsErrOf result ReadAllFault.ReadFault
        → HasRisen ((F.state shelf.old).faults name.now) ((F.state shelf.new).faults name.now) }
    ensures later { (other : List ℕ)
        → (F.state shelf.old).faults other ≤ (F.state shelf.new).faults other }
    ensures keeps { (other : List ℕ)
        → (F.state shelf.new).held other ≡ (F.state shelf.old).held other }
{
    let Ok(count) = shelf.read(name, bytes.len() as u64, piece) else {
        return Err(ReadAllFault::ReadFault);
    };
    if bytes.extend_from_slice(&piece[..count]).is_err() {
        return Err(ReadAllFault::Memory);
    }
    Ok(count)
}
