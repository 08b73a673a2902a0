//! The token in front of bytes that begin with no gap, and all tokens of a text.

ghost use Rattle.std.specs.Prelude.{◌≡◌, ◌≤◌, ◌<◌, ◌^◌, ◌∷◌, [], length, drop, slice_index, IfOk, IfSome, IsTrue, MatchOption, None};
ghost use Rattle.ligo_tokens.specs.Lexing.{bytes_at, double_at, double_sign, front, front_of_kind, is_name_byte, is_number_byte, keyword, literal_front, lower_at, name_front, name_kind, name_run, numeral_at, quoted_at, sign_at, single_sign, tokens_of, upper_at};

use crate::gap::skip;
use crate::literals::{bytes_says, text_says};
use crate::numerals::{Suffix, numeral_says};
use crate::runs::{Run, begins_with, is_lower, is_upper, is_word, length_of};
use crate::token::{Kind, Says, Token};
use micheline_text::{Gap, begins_hex, hexadecimal, is_digit, quoted};
use sqlite_items::{Boxed, Items};
use std::alloc::Global;
use value_core::NoMemory;

/// The token in front, and how many bytes it takes.
#[derive(Debug, Drop)]
struct Front {
    kind: Kind,
    says: Option<Boxed<Says>>,
    taken: usize,
}

fn bare(kind: Kind, taken: usize) -> Front
    ensures { result ≡ front_of_kind kind None taken }
{
    Front {
        kind,
        says: None,
        taken,
    }
}

fn keyword(word: &[u8]) -> Option<Kind>
    ensures { result ≡ keyword word.now }
{
    match word {
        _ if is_word(word, "type") => Some(Kind::Type),
        _ if is_word(word, "let") => Some(Kind::Let),
        _ if is_word(word, "rec") => Some(Kind::Rec),
        _ if is_word(word, "in") => Some(Kind::In),
        _ if is_word(word, "match") => Some(Kind::Match),
        _ if is_word(word, "with") => Some(Kind::With),
        _ if is_word(word, "if") => Some(Kind::If),
        _ if is_word(word, "then") => Some(Kind::Then),
        _ if is_word(word, "else") => Some(Kind::Else),
        _ if is_word(word, "of") => Some(Kind::Of),
        _ if is_word(word, "mod") => Some(Kind::Mod),
        _ if is_word(word, "_") => Some(Kind::Underscore),
        _ => None,
    }
}

fn name_kind(word: &[u8]) -> Kind
    ensures { result ≡ name_kind word.now }
{
    match word {
        _ if is_word(word, "list") => Kind::List,
        _ if is_word(word, "option") => Kind::Option,
        _ if is_word(word, "contract") => Kind::Contract,
        _ if is_word(word, "map") => Kind::Map,
        _ if is_word(word, "big_map") => Kind::BigMap,
        _ => Kind::Name,
    }
}

fn name_front(alloc: Global, kind: Kind, word: &[u8]) -> Result<Front, NoMemory>
    ensures { IfOk result (λ f. f ≡ name_front kind word.now) }
{
    let says = Says::Word(Items::from_slice(alloc, word)?);
    Ok(Front {
        kind,
        says: Some(Boxed::new(alloc, says)?),
        taken: word.len(),
    })
}

/// The letters, digits, `_` and `'` in front.
fn name_run(bytes: &[u8]) -> &[u8]
    ensures run { result.now ≡ name_run bytes.now }
    ensures within { length result.now ≤ length bytes.now }
    ensures some { (1 ≤ length bytes.now) → IsTrue (is_name_byte (slice_index bytes.now 0)) →
        1 ≤ length result.now }
{
    bytes.split_at(length_of(Run::Name, bytes)).0
}

fn lower_at(alloc: Global, bytes: &[u8]) -> Result<Front, NoMemory>
    requires some { 1 ≤ length bytes.now }
    requires first { IsTrue (is_name_byte (slice_index bytes.now 0)) }
    ensures front { IfOk result (λ f. f ≡ lower_at bytes.now) }
    ensures within { IfOk result (λ f. (1 ≤ f.taken) × (f.taken ≤ length bytes.now)) }
{
    let word = name_run(bytes);
    match keyword(word) {
        Some(kind) => Ok(bare(kind, word.len())),
        None => name_front(alloc, name_kind(word), word),
    }
}

fn upper_at(alloc: Global, bytes: &[u8]) -> Result<Front, NoMemory>
    requires some { 1 ≤ length bytes.now }
    requires first { IsTrue (is_name_byte (slice_index bytes.now 0)) }
    ensures front { IfOk result (λ f. f ≡ upper_at bytes.now) }
    ensures within { IfOk result (λ f. (1 ≤ f.taken) × (f.taken ≤ length bytes.now)) }
{
    name_front(alloc, Kind::Upper, name_run(bytes))
}

fn numeral_at(alloc: Global, bytes: &[u8]) -> Result<Front, NoMemory>
    requires some { 1 ≤ length bytes.now }
    requires first { IsTrue (is_number_byte (slice_index bytes.now 0)) }
    ensures front { IfOk result (λ f. f ≡ numeral_at bytes.now) }
    ensures within { IfOk result (λ f. (1 ≤ f.taken) × (f.taken ≤ length bytes.now)) }
{
    let (digits, rest) = bytes.split_at(length_of(Run::Number, bytes));
    let suffix = Suffix::at(rest);
    Ok(Front {
        kind: suffix.kind(),
        says: Some(Boxed::new(alloc, numeral_says(suffix, digits))?),
        taken: digits.len() + suffix.len(),
    })
}

/// A literal, or what takes all that is left where it is none.
fn literal_front(
    alloc: Global,
    kind: Kind,
    says: Option<Says>,
    taken: usize,
    left: usize,
) -> Result<Front, NoMemory>
    ensures front { IfOk result (λ f. f ≡ literal_front kind says taken left) }
    ensures within { IfOk result (λ f. (1 ≤ taken) → (taken ≤ left) → (1 ≤ left) →
        (1 ≤ f.taken) × (f.taken ≤ left)) }
{
    match says {
        Some(says) => Ok(Front {
            kind,
            says: Some(Boxed::new(alloc, says)?),
            taken,
        }),
        None => Ok(bare(Kind::Faulty, left)),
    }
}

fn bytes_at(alloc: Global, bytes: &[u8]) -> Result<Front, NoMemory>
    requires { 2 ≤ length bytes.now }
    ensures front { IfOk result (λ f. f ≡ bytes_at bytes.now) }
    ensures within { IfOk result (λ f. (1 ≤ f.taken) × (f.taken ≤ length bytes.now)) }
{
    let digits = bytes.split_at(2).1;
    let n = length_of(Run::Hex, digits);
    let says = bytes_says(hexadecimal(alloc, digits.split_at(n).0)?);
    literal_front(alloc, Kind::Bytes, says, 2 + n, bytes.len())
}

fn quoted_at(alloc: Global, bytes: &[u8]) -> Result<Front, NoMemory>
    requires { 1 ≤ length bytes.now }
    ensures front { IfOk result (λ f. f ≡ quoted_at bytes.now) }
    ensures within { IfOk result (λ f. (1 ≤ f.taken) × (f.taken ≤ length bytes.now)) }
{
    let (said, taken, ending) = quoted(alloc, bytes.split_at(1).1)?;
    let says = text_says(ending, said);
    literal_front(alloc, Kind::Text, says, 1 + taken, bytes.len())
}

fn double_sign(a: u8, b: u8) -> Option<Kind>
    ensures { result ≡ double_sign a b }
{
    match a {
        b'-' if b == b'>' => Some(Kind::Arrow),
        b':' if b == b':' => Some(Kind::Cons),
        b'<' if b == b'>' => Some(Kind::Differs),
        b'<' if b == b'=' => Some(Kind::AtMost),
        b'>' if b == b'=' => Some(Kind::AtLeast),
        b'&' if b == b'&' => Some(Kind::And),
        b'|' if b == b'|' => Some(Kind::Or),
        _ => None,
    }
}

fn single_sign(a: u8) -> Option<Kind>
    ensures { result ≡ single_sign a }
{
    match a {
        b'(' => Some(Kind::OpenParen),
        b')' => Some(Kind::CloseParen),
        b'[' => Some(Kind::OpenSquare),
        b']' => Some(Kind::CloseSquare),
        b'{' => Some(Kind::OpenBrace),
        b'}' => Some(Kind::CloseBrace),
        b':' => Some(Kind::Colon),
        b';' => Some(Kind::Semicolon),
        b',' => Some(Kind::Comma),
        b'.' => Some(Kind::Dot),
        b'|' => Some(Kind::Bar),
        b'=' => Some(Kind::Equals),
        b'<' => Some(Kind::Less),
        b'>' => Some(Kind::Greater),
        b'^' => Some(Kind::Caret),
        b'+' => Some(Kind::Plus),
        b'-' => Some(Kind::Minus),
        b'*' => Some(Kind::Star),
        b'/' => Some(Kind::Slash),
        _ => None,
    }
}

fn double_at(a: u8, bytes: &[u8]) -> Option<Kind>
    ensures sign { result ≡ double_at a bytes.now }
    ensures within { IfSome result (λ k. 2 ≤ length bytes.now) }
{
    if bytes.len() < 2 {
        return None;
    }
    double_sign(a, bytes[1])
}

fn sign_at(a: u8, bytes: &[u8]) -> Front
    requires { 1 ≤ length bytes.now }
    ensures front { result ≡ sign_at a bytes.now }
    ensures within { (1 ≤ result.taken) × (result.taken ≤ length bytes.now) }
{
    if begins_with(bytes, "[@entry]") {
        return bare(Kind::Entry, 8);
    }
    if begins_with(bytes, "[@inline]") {
        return bare(Kind::Inline, 9);
    }
    if let Some(kind) = double_at(a, bytes) {
        return bare(kind, 2);
    }
    match single_sign(a) {
        Some(kind) => bare(kind, 1),
        None => bare(Kind::Faulty, bytes.len()),
    }
}

fn front_token(alloc: Global, bytes: &[u8]) -> Result<Front, NoMemory>
    requires { 1 ≤ length bytes.now }
    ensures front { IfOk result (λ f. f ≡ front bytes.now) }
    ensures within { IfOk result (λ f. (1 ≤ f.taken) × (f.taken ≤ length bytes.now)) }
{
    let b = bytes[0];
    if is_lower(b) {
        lower_at(alloc, bytes)
    } else if is_upper(b) {
        upper_at(alloc, bytes)
    } else if is_digit(b) {
        if begins_hex(bytes) {
            bytes_at(alloc, bytes)
        } else {
            numeral_at(alloc, bytes)
        }
    } else if b == b'"' {
        quoted_at(alloc, bytes)
    } else {
        Ok(sign_at(b, bytes))
    }
}

/// A token, and where it ends.
#[derive(Drop)]
struct Found {
    token: Token,
    end: usize,
}

/// The next token from an offset on.
fn next(alloc: Global, b: &[u8], at: usize) -> Result<Option<Found>, NoMemory>
    requires whole { length b.now < 2 ^ 32 }
    requires inside { at ≤ length b.now }
    ensures token { IfOk result (λ o. MatchOption o (tokens_of at (drop at b.now) ≡ [])
        (λ f. tokens_of at (drop at b.now) ≡ f.token ∷ tokens_of f.end (drop f.end b.now))) }
    ensures within { IfOk result (λ o. IfSome o (λ f. (at < f.end) × (f.end ≤ length b.now))) }
{
    let left = match skip(b.split_at(at).1) {
        Gap::End => return Ok(None),
        Gap::Comment(left) => {
            let token = Token {
                at: (b.len() - left) as u32,
                kind: Kind::Faulty,
                says: None,
            };
            return Ok(Some(Found {
                token,
                end: b.len(),
            }));
        }
        Gap::Token(left) => left,
    };
    let start = b.len() - left;
    let Front { kind, says, taken } = front_token(alloc, b.split_at(start).1)?;
    let token = Token {
        at: start as u32,
        kind,
        says,
    };
    Ok(Some(Found {
        token,
        end: start + taken,
    }))
}

/// The tokens of a text. The last may be none: a byte that begins no token, or a string or comment
/// without an end.
pub fn tokens(alloc: Global, b: &[u8]) -> Result<Items<Token>, NoMemory>
    requires { length b.now < 2 ^ 32 }
    ensures { IfOk result (λ ts. ts ≡ tokens_of 0 b.now) }
{
    let mut found = Items::new(alloc);
    let mut at = 0;
    loop {
        let Some(Found { token, end }) = next(alloc, b, at)? else {
            return Ok(found);
        };
        found.push(token)?;
        at = end;
    }
}
