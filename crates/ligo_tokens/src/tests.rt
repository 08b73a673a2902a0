//! Texts with the tokens that they are made of.

use crate::{Kind, NoMemory, Says, Token, tokens};
use std::alloc::Global;
use std::test::Fail;

fn told(alloc: Global, token: &Token) -> Result<String, NoMemory> {
    let kind = token.kind;
    let at = token.at;
    match &token.says {
        None => format!(in alloc; "{at} {kind:?}"),
        Some(says) => match says.get() {
            Says::Word(word) => {
                let n = word.len();
                format!(in alloc; "{at} {kind:?} {n}")
            }
            Says::Number(n) => {
                let n = n.get();
                format!(in alloc; "{at} {kind:?} {n}")
            }
            Says::Mutez(n) => format!(in alloc; "{at} {kind:?} {n}"),
            Says::Wide => format!(in alloc; "{at} {kind:?} wide"),
            Says::Bytes(b) => {
                let n = b.bytes().len();
                format!(in alloc; "{at} {kind:?} {n}")
            }
            Says::Text(t) => {
                let n = t.bytes().len();
                format!(in alloc; "{at} {kind:?} {n}")
            }
        },
    }
}

/// Its tokens, each with its offset, kind and number or length, parted by commas.
fn answer(alloc: Global, text: &str) -> Result<String, NoMemory> {
    let mut out = String::new(alloc);
    if text.len() > 1000 {
        return Ok(out);
    }
    for token in tokens(alloc, text.as_bytes())?.as_slice() {
        if !out.is_empty() {
            out.push_str(", ")?;
        }
        out.push_str(told(alloc, token)?.as_str())?;
    }
    Ok(out)
}

#[test]
fn texts_and_their_tokens(rt: HostRuntime) -> Result<(), Fail> {
    let rows = [
        ("", ""),
        ("12f", "0 Int 12, 2 Name 1"),
        ("1natural", "0 Nat 1, 2 Name 6"),
        ("1_0mutez 2tez", "0 Tez 10, 9 Tez 2000000"),
        ("170141183460469231731687303715884105728", "0 Int wide"),
        (
            "9223372036854775807mutez9223372036855tez",
            "0 Tez 9223372036854775807, 24 Tez wide",
        ),
        (
            "a'b _ _a list",
            "0 Name 3, 4 Underscore, 6 Name 2, 9 List 4",
        ),
        ("[@entry]let rec", "0 Entry, 8 Let, 12 Rec"),
        ("Map.x", "0 Upper 3, 3 Dot, 4 Name 1"),
        (
            "a::b:c<>d<=e>=f",
            "0 Name 1, 1 Cons, 3 Name 1, 4 Colon, 5 Name 1, 6 Differs, 8 Name 1, 9 AtMost, 11 Name 1, 12 AtLeast, 14 Name 1",
        ),
        (
            "a->b||c&&d",
            "0 Name 1, 1 Arrow, 3 Name 1, 4 Or, 6 Name 1, 7 And, 9 Name 1",
        ),
        ("0x00fF \"a\\n\\\"\"", "0 Bytes 2, 7 Text 3"),
        ("(* (* *) \" *)1//x", "13 Int 1"),
        ("1 (* (* *)", "0 Int 1, 2 Faulty"),
        ("1 (*)", "0 Int 1, 2 Faulty"),
        ("1 \"a", "0 Int 1, 2 Faulty"),
        ("0x0", "0 Faulty"),
        ("a & b", "0 Name 1, 2 Faulty"),
    ];
    for (text, wanted) in rows {
        assert_eq!(rt; answer(rt.alloc(), text)?.as_str(), wanted);
    }
    Ok(())
}
