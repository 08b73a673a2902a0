//! The fields that formats are made of, each as its reader in `specs/Readers.antt` has it.

ghost use Rattle.std.specs.Int.{w8, w32, w64, w128};
ghost use Rattle.byte_fields.specs.Readers.{number, signed, run, mark};
ghost use Rattle.byte_fields.specs.Told.{Answers, left_stop};

use crate::fault::Left;

/// A number of one byte.
pub fn u8_at(bytes: &[u8]) -> Result<(u8, &[u8]), Left>
    ensures { Answers left_stop (λ x. (x.0, x.1.now)) result (number w8 bytes.now) }
{
    let ([byte], rest) = array_at::<1>(bytes)?;
    Ok((byte, rest))
}

/// A number of four bytes, the highest first.
pub fn u32_at(bytes: &[u8]) -> Result<(u32, &[u8]), Left>
    ensures { Answers left_stop (λ x. (x.0, x.1.now)) result (number w32 bytes.now) }
{
    let (front, rest) = array_at::<4>(bytes)?;
    Ok((u32::from_be_bytes(front), rest))
}

/// A number of eight bytes, the highest first.
pub fn u64_at(bytes: &[u8]) -> Result<(u64, &[u8]), Left>
    ensures { Answers left_stop (λ x. (x.0, x.1.now)) result (number w64 bytes.now) }
{
    let (front, rest) = array_at::<8>(bytes)?;
    Ok((u64::from_be_bytes(front), rest))
}

/// A number of sixteen bytes in two's complement, the highest first.
pub fn i128_at(bytes: &[u8]) -> Result<(i128, &[u8]), Left>
    ensures { Answers left_stop (λ x. (x.0, x.1.now)) result (signed w128 bytes.now) }
{
    let (front, rest) = array_at::<16>(bytes)?;
    Ok((i128::from_be_bytes(front), rest))
}

/// As many bytes as the array has.
pub fn array_at<const N: usize>(bytes: &[u8]) -> Result<([u8; N], &[u8]), Left>
    ensures { Answers left_stop (λ x. (x.0, x.1.now)) result (run N bytes.now) }
{
    let (front, rest) = run_at(N, bytes)?;
    let mut array = [0u8; N];
    array.copy_from_slice(front);
    Ok((array, rest))
}

/// So many bytes.
pub fn run_at(count: usize, bytes: &[u8]) -> Result<(&[u8], &[u8]), Left>
    ensures { Answers left_stop (λ x. (x.0.now, x.1.now)) result (run count bytes.now) }
{
    if bytes.len() < count {
        return Err(Left(bytes.len()));
    }
    Ok(bytes.split_at(count))
}

/// The bytes after those that have to be exactly `text`.
pub fn mark_of<'a>(text: &[u8], bytes: &'a [u8]) -> Result<&'a [u8], Left>
    ensures { Answers left_stop (λ x. (tt, x.now)) result (mark text.now bytes.now) }
{
    let (front, rest) = run_at(text.len(), bytes)?;
    if text != front {
        return Err(Left(bytes.len()));
    }
    Ok(rest)
}
