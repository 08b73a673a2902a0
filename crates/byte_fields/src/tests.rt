use crate::{
    At, Draft, FieldFault, Left, ReadStop, fault_at, i128_at, mark_of, run_at, u8_at, u32_at,
    u64_at,
};
use std::alloc::AllocError;
use std::test::Fail;

const BYTES: [u8; 17] = [
    0xff, 0xff, 0xff, 0xff, 0xff, 0xff, 0xff, 0xff, 0xff, 0xff, 0xff, 0xff, 0xff, 0xff, 0xff, 0xfe,
    7,
];

#[test]
fn a_number_of_each_width(rt: HostRuntime) -> Result<(), Fail> {
    let front = BYTES.as_slice();
    assert_eq!(rt; u8_at(front)?.0, 255);
    assert_eq!(rt; u32_at(&front[12..])?.0, 4_294_967_294);
    assert_eq!(rt; u64_at(&front[8..])?.0, 18_446_744_073_709_551_614);
    let (low, rest) = i128_at(front)?;
    assert_eq!(rt; low, -2);
    assert_eq!(rt; rest, [7].as_slice());
    Ok(())
}

#[test]
fn a_cut_field_is_told_at_its_first_byte(rt: HostRuntime) {
    let rest = &BYTES[13..];
    assert!(rt; matches!(u64_at(rest), Err(Left(4))));
    assert!(rt; matches!(run_at(5, rest), Err(Left(4))));
    assert!(rt; matches!(mark_of(b"\xff\xff\x00", rest), Err(Left(4))));
    assert_eq!(rt; fault_at(17, ReadStop::Left(4)), FieldFault::At(At(13)));
    assert_eq!(rt; fault_at(17, ReadStop::NoMemory), FieldFault::NoMemory);
}

#[test]
fn a_draft_is_kept_or_taken_back(rt: HostRuntime) -> Result<(), Fail> {
    let mut out = Vec::from_slice(rt.alloc(), &[9])?;
    let mut draft = Draft::on(rt.alloc(), &mut out);
    draft.put_count(258)?;
    draft.put_i128(-2)?;
    draft.close(Ok(()), &mut out)?;
    assert_eq!(rt; &out[..5], [9, 0, 0, 1, 2].as_slice());
    assert_eq!(rt; &out[5..], &BYTES[..16]);
    let mut draft = Draft::on(rt.alloc(), &mut out);
    draft.put_u8(1)?;
    let failed: Result<(), AllocError> = draft.close(Err(AllocError), &mut out);
    assert!(rt; failed.is_err());
    assert_eq!(rt; out.len(), 21);
    Ok(())
}
