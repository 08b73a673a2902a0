//! Texts with the answers that the grammar gives them, and what no clause says.

use crate::{NoMemory, TextFault, brackets_within, print_node, read_nodes};
use std::alloc::{AllocError, Global};
use std::test::Fail;

/// The nodes as they are printed, each with a `;` behind it, or the fault.
fn answer(alloc: Global, text: &str) -> Result<String, NoMemory> {
    let bytes = text.as_bytes();
    if bytes.len() > 1000 {
        return Err(AllocError);
    }
    match read_nodes(alloc, bytes) {
        Ok(nodes) => {
            let mut out = Vec::new(alloc);
            for node in nodes.as_slice() {
                out.extend_from_slice(print_node(alloc, node)?.as_slice())?;
                out.push(b';')?;
            }
            String::from_utf8(out).map_err(|_| AllocError)
        }
        Err(TextFault::BadToken(at)) => format!(in alloc; "BadToken {at}"),
        Err(TextFault::Unclosed(at)) => format!(in alloc; "Unclosed {at}"),
        Err(TextFault::WiderNumber(at)) => format!(in alloc; "WiderNumber {at}"),
        Err(TextFault::TooDeep(at)) => format!(in alloc; "TooDeep {at}"),
        Err(TextFault::NoMemory) => Err(AllocError),
    }
}

#[test]
fn texts_are_printed_again_or_refused_at_their_first_fault(rt: HostRuntime) -> Result<(), Fail> {
    let rows = [
        (
            "PUSH nat 170141183460469231731687303715884105728",
            "WiderNumber 9",
        ),
        (
            "PUSH nat 170141183460469231731687303715884105727",
            "PUSH nat 170141183460469231731687303715884105727;",
        ),
        (
            "-170141183460469231731687303715884105727",
            "-170141183460469231731687303715884105727;",
        ),
        ("-170141183460469231731687303715884105728", "WiderNumber 0"),
        ("P (", "Unclosed 2"),
        ("1 \"a", "BadToken 2"),
        ("P\"a\"0x00{}-1", "P \"a\" 0x00 {} -1;"),
        ("P (Q) (R 0XAB %a)", "P Q (R %a 0 XAB);"),
        ("P (Q) (R 0xAB %a)", "P Q (R %a 0xab);"),
        ("{ a ; {} ; \"\\n\" ; } # b", "{ a ; {} ; \"\\n\" };"),
        (" ;", "BadToken 1"),
        ("/*/", "Unclosed 0"),
        ("-0", "0;"),
        ("", ""),
    ];
    for (text, wanted) in rows {
        assert_eq!(rt; answer(rt.alloc(), text)?.as_str(), wanted);
    }
    Ok(())
}

#[test]
fn a_copy_is_the_same_and_another_place_is_not(rt: HostRuntime) -> Result<(), Fail> {
    let nodes = read_nodes(rt.alloc(), "P %a {1} 0x00 \"b\" ; P".as_bytes()).ok();
    let again = read_nodes(rt.alloc(), " P %a {1} 0x00 \"b\"".as_bytes()).ok();
    match (nodes, again) {
        (Some(nodes), Some(again)) => {
            assert_eq!(rt; nodes.len(), 2);
            assert_eq!(rt; again.len(), 1);
            let first = &nodes.as_slice()[0];
            assert!(rt; first.same(&first.copy(rt.alloc())?));
            assert!(rt; first.body.same(&first.body.copy(rt.alloc())?));
            assert!(rt; !first.same(&again.as_slice()[0]));
            assert!(rt; brackets_within(first, 1));
            assert!(rt; !brackets_within(first, 0));
        }
        _ => assert!(rt; false),
    }
    Ok(())
}

/// Whether the bytes are read as one node, and printed as they are.
fn is_printed_again(alloc: Global, text: &Vec<u8>) -> Result<bool, NoMemory> {
    let bytes = text.as_slice();
    if bytes.len() > 1_000_000 {
        return Err(AllocError);
    }
    match read_nodes(alloc, bytes) {
        Ok(nodes) if nodes.len() == 1 => {
            Ok(print_node(alloc, &nodes.as_slice()[0])?.as_slice() == bytes)
        }
        Ok(_) | Err(_) => Ok(false),
    }
}

/// A string of so many letters.
fn letters(alloc: Global, n: u32) -> Result<Vec<u8>, NoMemory> {
    let mut text = Vec::new(alloc);
    text.push(b'"')?;
    for _ in 0..n {
        text.push(b'a')?;
    }
    text.push(b'"')?;
    Ok(text)
}

/// So many sequences in one another, and one in them all.
fn sequences(alloc: Global, n: u32) -> Result<Vec<u8>, NoMemory> {
    let mut text = Vec::new(alloc);
    for _ in 0..n {
        text.extend_from_slice(b"{ ")?;
    }
    text.extend_from_slice(b"{}")?;
    for _ in 0..n {
        text.extend_from_slice(b" }")?;
    }
    Ok(text)
}

/// A byte literal of so many bytes.
fn digits(alloc: Global, bytes: u32) -> Result<Vec<u8>, NoMemory> {
    let mut text = Vec::new(alloc);
    text.extend_from_slice(b"0x")?;
    for _ in 0..bytes {
        text.extend_from_slice(b"a5")?;
    }
    Ok(text)
}

/// So many parentheses in one another.
fn applications(alloc: Global, n: u32) -> Result<Vec<u8>, NoMemory> {
    let mut text = Vec::new(alloc);
    for _ in 0..n {
        text.extend_from_slice(b"P (")?;
    }
    text.extend_from_slice(b"P 1")?;
    for _ in 0..n {
        text.push(b')')?;
    }
    Ok(text)
}

#[test]
fn the_longest_literals_and_the_deepest_brackets_are_read(rt: HostRuntime) -> Result<(), Fail> {
    let alloc = rt.alloc();
    assert!(rt; is_printed_again(alloc, &letters(alloc, 131_071)?)?);
    assert!(rt; !is_printed_again(alloc, &letters(alloc, 131_072)?)?);
    assert!(rt; is_printed_again(alloc, &digits(alloc, 131_071)?)?);
    assert!(rt; !is_printed_again(alloc, &digits(alloc, 131_072)?)?);
    assert!(rt; is_printed_again(alloc, &sequences(alloc, 255)?)?);
    assert!(rt; !is_printed_again(alloc, &sequences(alloc, 256)?)?);
    assert!(rt; is_printed_again(alloc, &applications(alloc, 256)?)?);
    assert!(rt; !is_printed_again(alloc, &applications(alloc, 257)?)?);
    Ok(())
}
