ghost use Rattle.std.specs.Prelude.{◌≡◌, ◌≢◌, ℕ, ◌+◌, ◌++◌, ◌<◌, ◌≤◌, List, Err, true, length, vec_len, IfOk, OnOk, OnErr, IsErrOf};
ghost use Rattle.ert_io.specs.{Faults.Rose, Known.{stream_told, before, HandsOut, HandsUpTo, IsAtEnd}, declared.reading.ReadErr.TheVariants.NoMemory};

use crate::source::Source;
use std::alloc::{AllocError, Global};
use thiserror::Error;

/// The most bytes that a program reads of an input.
pub const MAX_INPUT: usize = 16_777_216;

/// Why `read_all` gives no bytes.
#[derive(Clone, Copy, Debug, PartialEq, Eq, Error)]
pub enum ReadErr {
    /// A read failed.
    #[error("a read failed")]
    ReadFault,
    /// There are more bytes than the limit.
    #[error("there are more bytes than the limit")]
    TooLong,
    /// There is no memory for the bytes.
    #[error("out of memory")]
    NoMemory,
}

impl From<AllocError> for ReadErr {
    ghost from_gives = { λ _ e. e ≡ NoMemory };

    fn from(_error: AllocError) -> ReadErr {
        ReadErr::NoMemory
    }
}

// How many bytes a read asks for, so that a long input takes few reads.
const PIECE: usize = 65_536;

/// Reads all bytes that a source has left, if they are `limit` at most.
///
/// Where they are more, it takes `limit + 1` of them and answers `TooLong`. Where a read fails it has taken
/// `limit` at most, and where no memory is left `limit + 1` at most.
pub fn read_all<S: Source>(alloc: Global, source: &mut S, limit: usize) -> Result<Vec<u8>, ReadErr>
    ensures bytes { IfOk result (λ v. HandsOut (stream_told (S.given source.old) (S.left source.old)) (stream_told (S.given source.new) (S.left source.new)) v.items) }
    ensures ended { OnOk result (S.ended source.new ≡ true) }
    ensures none_left { OnOk result (IsAtEnd (S.left source.new)) }
    ensures short { IfOk result (λ v. length v.items ≤ limit) }
    ensures too_long { IsErrOf result ReadErr.TooLong
        → (bytes : List ℕ) × (length bytes ≡ limit + 1) × HandsOut (stream_told (S.given source.old) (S.left source.old)) (stream_told (S.given source.new) (S.left source.new)) bytes }
    ensures fault { IsErrOf result ReadErr.ReadFault
        → HandsUpTo limit (stream_told (S.given source.old) (S.left source.old)) (stream_told (S.given source.new) (S.left source.new)) }
    ensures memory { IsErrOf result ReadErr.NoMemory
        → HandsUpTo (limit + 1) (stream_told (S.given source.old) (S.left source.old)) (stream_told (S.given source.new) (S.left source.new)) }
    ensures later { S.faults source.old ≤ S.faults source.new }
    ensures cause { IsErrOf result ReadErr.ReadFault → Rose (S.faults source.old) (S.faults source.new) }
{
    let mut space = zeros(alloc, PIECE)?;
    let piece = space.as_mut_slice();
    let mut bytes = Vec::new(alloc);
    'pieces: while bytes.len() <= limit {
        let wanted = (limit - bytes.len()).saturating_add(1).min(piece.len());
        if append_piece(source, &mut piece[..wanted], &mut bytes)? == 0 {
            return Ok(bytes);
        }
    }
    Err(ReadErr::TooLong)
}

// One read, by way of `space`: how many bytes it appended, 0 at the source's end.
fn append_piece<S: Source>(
    source: &mut S,
    space: &mut [u8],
    bytes: &mut Vec<u8>,
) -> Result<usize, ReadErr>
    requires { 0 < length space.old }
    ensures bound { IfOk result (λ n. n ≤ length space.old) }
    ensures count { IfOk result (λ n. vec_len bytes.new ≡ vec_len bytes.old + n) }
    ensures given { OnOk result ((more : List ℕ) × (bytes.new.items ≡ bytes.old.items ++ more)
        × HandsOut (stream_told (S.given source.old) (S.left source.old)) (stream_told (S.given source.new) (S.left source.new)) more) }
    ensures ended { IfOk result (λ n. n ≡ 0 → S.ended source.new ≡ true) }
    ensures none_left { IfOk result (λ n. n ≡ 0 → IsAtEnd (S.left source.new)) }
    ensures not_long { OnErr result (result ≢ Err ReadErr.TooLong) }
    ensures lost { IsErrOf result ReadErr.NoMemory
        → HandsUpTo (length space.old) (stream_told (S.given source.old) (S.left source.old)) (stream_told (S.given source.new) (S.left source.new)) }
    ensures fault { IsErrOf result ReadErr.ReadFault → bytes.new ≡ bytes.old }
    ensures kept { IsErrOf result ReadErr.ReadFault → stream_told (S.given source.new) (S.left source.new) ≡ stream_told (S.given source.old) (S.left source.old) }
    ensures later { S.faults source.old ≤ S.faults source.new }
    ensures cause { IsErrOf result ReadErr.ReadFault → Rose (S.faults source.old) (S.faults source.new) }
{
    let Ok(count) = source.read(space) else {
        return Err(ReadErr::ReadFault);
    };
    bytes.extend_from_slice(&space[..count])?;
    Ok(count)
}

// A function of its own, so that no other proof sees so many zeros.
fn zeros(alloc: Global, count: usize) -> Result<Vec<u8>, AllocError>
    ensures { IfOk result (λ v. vec_len v ≡ count) }
{
    vec![in alloc; 0u8; count]
}
