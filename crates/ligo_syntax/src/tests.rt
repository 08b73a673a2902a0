//! Texts with the answers that the grammar gives them.

use crate::{NoMemory, SyntaxRefusal, parse};
use std::alloc::{AllocError, Global};
use std::test::Fail;

/// How many declarations a text has, or its fault.
fn answer(alloc: Global, text: &str) -> Result<String, NoMemory> {
    let bytes = text.as_bytes();
    if bytes.len() > 10000 {
        return Err(AllocError);
    }
    match parse(alloc, bytes) {
        Ok(program) => {
            let count = program.decls.len();
            format!(in alloc; "{count}")
        }
        Err(SyntaxRefusal::Fault(fault)) => {
            let at = fault.at;
            let expected = fault.expected;
            format!(in alloc; "{at} {expected:?}")
        }
        Err(SyntaxRefusal::NoMemory) => Err(AllocError),
    }
}

#[test]
fn texts_are_read_or_refused_at_their_first_fault(rt: HostRuntime) -> Result<(), Fail> {
    let rows = [
        ("", "0"),
        ("let x = 1 +", "11 Expression"),
        ("type t = 3", "9 TypeExpr"),
        ("let x = 1", "1"),
        ("let x = y", "1"),
        ("let rec f (n : int) : int = 1 + f n", "1"),
        ("let _ = 1", "4 Token"),
        ("x", "0 Token"),
        ("let x = \"a", "8 Expression"),
        ("let x = (* (* *)", "8 Expression"),
        ("let x = if a then b else", "24 Expression"),
        ("let x = if a then if b then c else d", "1"),
        ("let x = a :: b :: c - d - e", "1"),
        ("let f (a, b) = 1", "11 Token"),
        ("let x = match y with", "20 Pattern"),
        ("let x = match y with 1", "21 Pattern"),
        ("type t = | A of int | B", "1"),
        ("type t = { a : int; b : (int, nat) map; }", "1"),
        ("[@entry] [@inline] type t = int", "19 Token"),
        ("let x = Some.x.0", "1"),
        ("let x = { a with b = 1; c = 2 }", "1"),
        ("let x = { a with b = 1; }", "24 Token"),
    ];
    for (text, wanted) in rows {
        assert_eq!(rt; answer(rt.alloc(), text)?.as_str(), wanted);
    }
    Ok(())
}

#[test]
fn numerals_past_their_range_are_told_where_smaller_ones_could_stand(
    rt: HostRuntime,
) -> Result<(), Fail> {
    let rows = [
        ("let x = 170141183460469231731687303715884105727", "1"),
        (
            "let x = 170141183460469231731687303715884105728",
            "8 NumberInRange",
        ),
        (
            "let x = a.170141183460469231731687303715884105728",
            "10 NumberInRange",
        ),
        ("let x = 9223372036855tez", "8 NumberInRange"),
        (
            "type t = 170141183460469231731687303715884105728",
            "9 TypeExpr",
        ),
        (
            "let x = a.170141183460469231731687303715884105728n",
            "10 Token",
        ),
    ];
    for (text, wanted) in rows {
        assert_eq!(rt; answer(rt.alloc(), text)?.as_str(), wanted);
    }
    Ok(())
}

/// The answer to a number within so many of these.
fn nested(alloc: Global, open: &str, times: usize, close: &str) -> Result<String, NoMemory> {
    let mut text = String::new(alloc);
    text.push_str("let x = ")?;
    for _ in 0..times {
        text.push_str(open)?;
    }
    text.push_str("1")?;
    for _ in 0..times {
        text.push_str(close)?;
    }
    answer(alloc, text.as_str())
}

// A declaration and its program are one deeper each than the expression: a bracket adds 1 to the
// number's 1, and a bracket with an operator or an `if` in it adds 2.
#[test]
fn a_tree_is_512_deep_and_no_deeper(rt: HostRuntime) -> Result<(), Fail> {
    let rows = [
        ("(", 509, ")", "1"),
        ("(", 510, ")", "518 TooDeep"),
        ("[", 509, "]", "1"),
        ("[", 510, "]", "518 TooDeep"),
        ("(1*", 254, ")", "1"),
        ("(1*", 255, ")", "772 TooDeep"),
        ("[if 1 then ", 254, "]", "1"),
        ("[if 1 then ", 255, "]", "2806 TooDeep"),
    ];
    for (open, times, close, wanted) in rows {
        assert_eq!(rt; nested(rt.alloc(), open, times, close)?.as_str(), wanted);
    }
    Ok(())
}

const TOKEN: &str = "type storage = { ledger : (address, nat) big_map; total : nat }
type result = operation list * storage
[@entry]
let transfer (dst, amount : address * nat) (s : storage) : result =
  let src = Tezos.get_sender () in
  let have = match Big_map.find_opt src s.ledger with None -> 0n | Some n -> n in
  match is_nat (have - amount) with
    None -> failwith \"low\"
  | Some rest ->
    let led = Big_map.add src rest s.ledger in
    let old = match Big_map.find_opt dst led with None -> 0n | Some n -> n in
    [], { s with ledger = Big_map.add dst (old + amount) led }
[@entry]
let mint (amount : nat) (s : storage) : result =
  let me = Tezos.get_sender () in
  let old = match Big_map.find_opt me s.ledger with None -> 0n | Some n -> n in
  [], { ledger = Big_map.add me (old + amount) s.ledger; total = s.total + amount }
";

const DOWN: &str = "let rec down (n : int) : int = if n <= 0 then 0 else down (n - 1)
[@entry]
let main (p : int) (s : int) : operation list * int = [], s + down p
";

const PAIR_FAIL: &str = "let rec down (n : int) : int = if n <= 0 then 0 else down (n - 1)
[@entry]
let main (p : int) (s : int) : operation list * int =
  let x : int * int = (failwith \"left\", failwith \"right\") in [], x.0
";

#[test]
fn whole_programs_are_read(rt: HostRuntime) -> Result<(), Fail> {
    for (text, wanted) in [(TOKEN, "4"), (DOWN, "2"), (PAIR_FAIL, "2")] {
        assert_eq!(rt; answer(rt.alloc(), text)?.as_str(), wanted);
    }
    Ok(())
}
