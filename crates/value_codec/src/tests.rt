ghost use Rattle.std.specs.Prelude.{◌≤◌, IfOk, IsTrue};
ghost use Rattle.value_core.specs.Depth.{depth_of};
ghost use Rattle.value_core.specs.Sound.{is_plain};

use crate::{
    ANY_VALUE, At, FieldFault, KEY_VALUE, PASSED_VALUE, read_val, spelling, value_at, write_val,
};
use byte_fields::ReadStop;
use std::alloc::{AllocError, Global};
use std::test::Fail;
use value_core::{Num, Text, Val, pair};

/// `Pair (Int -1) (Text "ab")`.
const SPELT: [u8; 25] = [
    0x0e, 0x03, 0xff, 0xff, 0xff, 0xff, 0xff, 0xff, 0xff, 0xff, 0xff, 0xff, 0xff, 0xff, 0xff, 0xff,
    0xff, 0xff, 0x07, 0, 0, 0, 2, 0x61, 0x62,
];

fn pair_of(alloc: Global, number: Num, text: Text) -> Result<Val, AllocError>
    ensures plain { IfOk result (λ v. IsTrue (is_plain v)) }
    ensures deep { IfOk result (λ v. depth_of v ≤ 128) }
{
    pair(alloc, Val::Int(number), Val::Text(text))
}

#[test]
fn a_pair_is_written_and_read_again(rt: HostRuntime) -> Result<(), Fail> {
    let text = Text::new(Vec::from_slice(rt.alloc(), b"ab")?).ok_or("a text")?;
    let number = Num::new(-1).ok_or("a number")?;
    let value = pair_of(rt.alloc(), number, text)?;
    let mut out = Vec::from_slice(rt.alloc(), &[9])?;
    write_val(rt.alloc(), &value, &mut out)?;
    assert_eq!(rt; &out[1..], SPELT.as_slice());
    assert_eq!(rt; spelling(rt.alloc(), &value)?.as_slice(), SPELT.as_slice());
    let (again, end) = read_val(rt.alloc(), &out, 1)?;
    assert!(rt; again.same(&value));
    assert_eq!(rt; end, 26);
    Ok(())
}

/// What is written of the value that stands in front of the bytes.
fn written_again(alloc: Global, bytes: &[u8]) -> Result<Vec<u8>, Fail> {
    let (value, _) = read_val(alloc, bytes, 0)?;
    let mut out = Vec::new(alloc);
    write_val(alloc, &value, &mut out)?;
    Ok(out)
}

#[test]
fn a_value_128_deep_is_read_and_written(rt: HostRuntime) -> Result<(), Fail> {
    let mut deep = vec![in rt.alloc(); 0x0b; 127]?;
    deep.push(0)?;
    assert_eq!(rt;
        written_again(rt.alloc(), &deep)?.as_slice(),
        deep.as_slice()
    );
    Ok(())
}

#[test]
fn a_text_of_131071_bytes_is_read_and_written(rt: HostRuntime) -> Result<(), Fail> {
    let mut text = vec![in rt.alloc(); 0x61; 131_076]?;
    text[..5].copy_from_slice(&[0x07, 0, 1, 0xff, 0xff]);
    assert_eq!(rt;
        written_again(rt.alloc(), &text)?.as_slice(),
        text.as_slice()
    );
    Ok(())
}

#[test]
fn values_at_their_limits_are_read_and_written(rt: HostRuntime) -> Result<(), Fail> {
    let mut greatest = [0xff; 17];
    greatest[..2].copy_from_slice(&[0x03, 0x7f]);
    let mut least = [0; 17];
    least[..2].copy_from_slice(&[0x03, 0x80]);
    least[16] = 1;
    let limits: [&[u8]; 4] = [
        // 2^127 - 1, and as far below zero
        &greatest,
        &least,
        // 2^63 - 1 millionths
        &[0x05, 0x7f, 0xff, 0xff, 0xff, 0xff, 0xff, 0xff, 0xff],
        // the last place of a big map
        &[0x12, 15],
    ];
    for bytes in limits {
        assert_eq!(rt; written_again(rt.alloc(), bytes)?.as_slice(), bytes);
    }
    Ok(())
}

#[test]
fn the_first_fault_is_told_at_its_place(rt: HostRuntime) -> Result<(), Fail> {
    let deep = vec![in rt.alloc(); 0x0b; 129]?;
    let mut beyond = [0; 17];
    beyond[..2].copy_from_slice(&[0x03, 0x80]);
    let faults: [(&[u8], usize); 10] = [
        // -2^127
        (&beyond, 1),
        // 2^63 millionths
        (&[0x05, 0x80, 0, 0, 0, 0, 0, 0, 0], 1),
        // cut by one byte, the text is told at the first of its bytes
        (&SPELT[..24], 23),
        // no tag
        (&[0x13], 0),
        // the place of a big map
        (&[0x12, 16], 1),
        // two items that are equal
        (&[0x10, 0, 0, 0, 2, 2, 2], 6),
        // a second key that is below the first, before its value is read
        (&[0x11, 0, 0, 0, 2, 2, 0, 1], 7),
        // a byte that no text has
        (&[0x07, 0, 0, 0, 2, 0x61, 0x7f], 5),
        // an address of neither kind, though it is cut as well
        (&[0x09, 2], 1),
        // the part past the depth
        (&deep, 128),
    ];
    for (bytes, place) in faults {
        let told = read_val(rt.alloc(), bytes, 0);
        assert!(rt;
            matches!(told, Err(FieldFault::At(At(at))) if at == place),
            "{bytes:?}"
        );
    }
    Ok(())
}

#[test]
fn a_tag_that_may_not_stand_is_told_where_it_stands(rt: HostRuntime) -> Result<(), Fail> {
    // a pair whose second part is a big map
    let bytes = [0x0e, 0x00, 0x12, 0x00];
    assert!(rt; value_at(rt.alloc(), ANY_VALUE, 2, &bytes).is_ok());
    for most in [PASSED_VALUE, KEY_VALUE] {
        let told = value_at(rt.alloc(), most, 2, &bytes);
        assert!(rt; matches!(told, Err(ReadStop::Left(2))));
    }
    Ok(())
}
