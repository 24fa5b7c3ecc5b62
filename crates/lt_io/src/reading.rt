ghost use Rattle.std.specs.Prelude.{◌≡◌, ◌<◌, ◌≤◌, OnOk, IfOk, IfSome, IsErrOf, length, vec_len};
ghost use Rattle.std.specs.Io.KnownBytes.{IsAtEnd};
ghost use Rattle.lt_io.specs.Cause.{Rose};
ghost use Rattle.lt_io.specs.declared.reading.ReadAllError.TheVariants.{Fault, NoMemory as WantOfMemory};

use crate::{Source, SourceFault};
use lt_rec::{NoMemory, Octets};
use std::alloc::{AllocError, Global};

/// The most bytes that an input may have.
pub const INPUT_LIMIT: usize = 67_108_864;

const PIECE: usize = 65_536;

/// Why a source could not be read to its end.
#[derive(Clone, Copy, Debug, PartialEq, Eq)]
pub enum ReadAllError {
    /// The source failed.
    Fault,
    /// It gives more than [`INPUT_LIMIT`] bytes.
    TooLong,
    /// Memory ran out.
    NoMemory,
}

impl From<SourceFault> for ReadAllError {
    ghost from_gives = { λ _ e. e ≡ Fault };

    fn from(_fault: SourceFault) -> ReadAllError {
        ReadAllError::Fault
    }
}

impl From<AllocError> for ReadAllError {
    ghost from_gives = { λ _ e. e ≡ WantOfMemory };

    fn from(_refused: AllocError) -> ReadAllError {
        ReadAllError::NoMemory
    }
}

fn empty_piece(alloc: Global) -> Result<Vec<u8>, AllocError>
    ensures { IfOk result (λ piece. vec_len piece ≡ PIECE) }
{
    vec![in alloc; 0u8; PIECE]
}

fn read_pieces<S: Source>(
    alloc: Global,
    source: &mut S,
    piece: &mut [u8],
) -> Result<Vec<u8>, ReadAllError>
    requires { 0 < length piece.old }
    ensures whole { IfOk result (λ bytes. IfSome (S.left source.old) (λ given. bytes.items ≡ given)) }
    ensures within { IfOk result (λ bytes. vec_len bytes ≤ INPUT_LIMIT) }
    ensures to_the_end { OnOk result (IsAtEnd (S.left source.new)) }
    ensures too_long { IsErrOf result ReadAllError.TooLong → IfSome (S.left source.old) (λ given. INPUT_LIMIT < length given) }
    ensures later { S.faults source.old ≤ S.faults source.new }
    ensures failed { IsErrOf result ReadAllError.Fault → Rose (S.faults source.old) (S.faults source.new) }
{
    let mut bytes = Vec::new(alloc);
    loop {
        let count = source.read(piece)?;
        if count == 0 {
            return Ok(bytes);
        }
        if count > INPUT_LIMIT - bytes.len() {
            return Err(ReadAllError::TooLong);
        }
        let (given, _) = piece.split_at(count);
        bytes.extend_from_slice(given)?;
    }
}

/// All that the source gives, up to its end.
pub fn read_all<S: Source>(alloc: Global, source: &mut S) -> Result<Octets, ReadAllError>
    ensures whole { IfOk result (λ bytes. IfSome (S.left source.old) (λ given. bytes ≡ given)) }
    ensures within { IfOk result (λ bytes. length bytes ≤ INPUT_LIMIT) }
    ensures to_the_end { OnOk result (IsAtEnd (S.left source.new)) }
    ensures too_long { IsErrOf result ReadAllError.TooLong → IfSome (S.left source.old) (λ given. INPUT_LIMIT < length given) }
    ensures later { S.faults source.old ≤ S.faults source.new }
    ensures failed { IsErrOf result ReadAllError.Fault → Rose (S.faults source.old) (S.faults source.new) }
{
    let mut piece = empty_piece(alloc)?;
    let bytes = read_pieces(alloc, source, piece.as_mut_slice())?;
    Ok(Octets::from_vec(bytes))
}
