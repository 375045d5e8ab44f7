//! Reading the header of a file, and the largest file that is read.
ghost use Rattle.std.specs.Prelude.{◌≡◌, ◌+◌, ◌≤◌, ◌↔◌, length, drop, IsOk, IfOk, IfErr};
ghost use Rattle.byteorder.specs.Endian.{big_number};
ghost use Rattle.hd_terms.specs.declared.errors.Cause.TheVariants.{TooLarge};
ghost use Rattle.hd_terms.specs.Records.{has_magic, largest_file, HasHeader};
ghost use Rattle.hd_terms.specs.ReadFaults.{fault, IsRecordsFault};

use byteorder::{BigEndian, ByteOrder};
use hd_terms::{Cause, IdSize, ReadFault};

/// The most bytes of a file that is read.
const LARGEST_FILE: u64 = 2_147_483_647;

/// The bytes of the header.
pub const HEADER_LEN: usize = 31;

/// The bytes of the text at the front of a file, with its zero byte.
const MAGIC_LEN: usize = 19;

/// The text at the front of a file.
const MAGIC_1_0_2: &[u8; MAGIC_LEN] = b"JAVA PROFILE 1.0.2\0";

/// The text at the front of a file that JDK 8 wrote. What follows is read alike.
const MAGIC_1_0_1: &[u8; MAGIC_LEN] = b"JAVA PROFILE 1.0.1\0";

/// Where the header gives the size of an identifier.
const ID_SIZE_AT: usize = 19;

/// Whether a file of `len` bytes can be read at all: `TooLarge` at 0 where it has more than 2,147,483,647 bytes.
///
/// It needs no byte of the file and no memory.
pub fn check_size(len: u64) -> Result<(), ReadFault>
    ensures ok { IsOk result ↔ (len ≤ largest_file) }
    ensures err { IfErr result (λ f. f ≡ fault TooLarge 0) }
{
    if len > LARGEST_FILE {
        return Err(ReadFault {
            cause: Cause::TooLarge,
            offset: 0,
        });
    }
    Ok(())
}

/// The number of four bytes at an offset.
pub fn number_at(bytes: &[u8], at: usize) -> u32
    requires { at + 4 ≤ length bytes.now }
    ensures { result ≡ big_number 4 (drop at bytes.now) }
{
    BigEndian::read_u32(&bytes[at..])
}

/// Whether the bytes begin with a text that a file begins with.
fn has_magic(bytes: &[u8]) -> bool
    requires { 19 ≤ length bytes.now }
    ensures { result ≡ has_magic bytes.now }
{
    let text = &bytes[..MAGIC_LEN];
    text == MAGIC_1_0_2.as_slice() || text == MAGIC_1_0_1.as_slice()
}

/// What identifiers measure, where the header stands as it has to.
pub fn read_header(bytes: &[u8]) -> Result<IdSize, ReadFault>
    ensures ok { IfOk result (λ size. HasHeader size bytes.now) }
    ensures err { IfErr result (λ f. IsRecordsFault bytes.now f) }
{
    check_size(bytes.len() as u64)?;
    if bytes.len() < HEADER_LEN {
        return Err(ReadFault {
            cause: Cause::Truncated,
            offset: 0,
        });
    }
    if !has_magic(bytes) {
        return Err(ReadFault {
            cause: Cause::BadMagic,
            offset: 0,
        });
    }
    match number_at(bytes, ID_SIZE_AT) {
        4 => Ok(IdSize::Four),
        8 => Ok(IdSize::Eight),
        _ => Err(ReadFault {
            cause: Cause::BadIdSize,
            offset: 19,
        }),
    }
}
