//! Bytes to nodes, token by token.

ghost use Rattle.std.specs.Prelude.{◌≡◌, ◌⊎◌, ◌≤◌, ◌<◌, ◌^◌, ◌∷◌, [], length, drop, IfErr, IfOk, IfSome, List, MatchOption, Ok};
ghost use Rattle.micheline_text.specs.declared.node.Node.{Node};
ghost use Rattle.micheline_text.specs.Faults.{IsFaultOf};
ghost use Rattle.micheline_text.specs.declared.fault.TextFault.TheVariants.{NoMemory};
ghost use Rattle.micheline_text.specs.Text.{IsTextOf};
ghost use Rattle.micheline_text.specs.Told.{AnswersUnlessFull, text_fault};
ghost use Rattle.micheline_text.specs.Lexing.{tokens_of};
ghost use Rattle.micheline_text.specs.Reading.{close_brace, close_paren, finish, first_open, opened, reading, shown, step, taken, within};
ghost use Rattle.micheline_text.specs.Grammar.{node_at};

use crate::NoMemory;
use crate::fault::TextFault;
use crate::gap::{Gap, skip};
use crate::level::{
    Level, Open, applied, ended, named, noted, parted, taken, takes_argument, takes_literal,
};
use crate::lexer::token_at;
use crate::node::{Body, Node};
use crate::pile::Pile;
use crate::slices::rest_from;
use crate::token::Token;
use sqlite_items::Items;
use std::alloc::Global;

/// The brackets that may be open at once.
const DEEPEST: usize = 256;

#[derive(Debug, Drop)]
struct State {
    level: Level,
    opens: Pile<Open>,
}

fn first_open(opens: &Pile<Open>, at: usize) -> usize
    ensures { result ≡ first_open opens.now at }
{
    match opens.bottom() {
        Some(open) => open.at as usize,
        None => at,
    }
}

fn opened(allowed: bool, inner: Level, at: u32, state: State) -> Result<State, TextFault>
    ensures { AnswersUnlessFull text_fault shown result
        (opened allowed inner at state.level state.opens) }
{
    if !allowed {
        return Err(TextFault::BadToken(at as usize));
    }
    if state.opens.len() >= DEEPEST {
        return Err(TextFault::TooDeep(at as usize));
    }
    let State { level, mut opens } = state;
    opens.push(Open { at, outer: level })?;
    Ok(State {
        level: inner,
        opens,
    })
}

fn close_brace(at: usize, state: State) -> Result<State, TextFault>
    ensures { AnswersUnlessFull text_fault shown result (close_brace at state.level state.opens) }
{
    let State { level, mut opens } = state;
    let Some(open) = opens.pop() else {
        return Err(TextFault::BadToken(at));
    };
    let Open { at: start, outer } = open;
    let body = Body::Seq(ended(at, level)?);
    let level = taken(at, outer, Node { at: start, body })?;
    Ok(State { level, opens })
}

fn close_paren(at: usize, state: State) -> Result<State, TextFault>
    ensures { AnswersUnlessFull text_fault shown result (close_paren at state.level state.opens) }
{
    let State { level, mut opens } = state;
    let Some(open) = opens.pop() else {
        return Err(TextFault::BadToken(at));
    };
    let level = taken(at, open.outer, applied(at, level)?)?;
    Ok(State { level, opens })
}

fn literal(at: u32, body: Body, state: State) -> Result<State, TextFault>
    ensures { AnswersUnlessFull text_fault shown result
        (within state.opens (taken at state.level (node_at at body))) }
{
    let State { level, opens } = state;
    let level = taken(at as usize, level, Node { at, body })?;
    Ok(State { level, opens })
}

fn step(alloc: Global, at: u32, token: Token, state: State) -> Result<State, TextFault>
    ensures { AnswersUnlessFull text_fault shown result (step at token state.level state.opens) }
{
    let place = at as usize;
    match token {
        Token::Number(n) => literal(at, Body::Int(n), state),
        Token::Text(text) => literal(at, Body::Text(text), state),
        Token::Bytes(blob) => literal(at, Body::Bytes(blob), state),
        Token::Word(word) => {
            let State { level, opens } = state;
            let level = named(alloc, at, level, word)?;
            Ok(State { level, opens })
        }
        Token::Note(note) => {
            let State { level, opens } = state;
            let level = noted(place, level, note)?;
            Ok(State { level, opens })
        }
        Token::Semicolon => {
            let State { level, opens } = state;
            let level = parted(place, level)?;
            Ok(State { level, opens })
        }
        Token::OpenBrace => {
            let allowed = takes_literal(&state.level);
            opened(allowed, Level::Start(Items::new(alloc)), at, state)
        }
        Token::OpenParen => {
            let allowed = takes_argument(&state.level);
            opened(allowed, Level::Head, at, state)
        }
        Token::CloseBrace => close_brace(place, state),
        Token::CloseParen => close_paren(place, state),
        Token::OpenComment => Err(TextFault::Unclosed(first_open(&state.opens, place))),
        Token::Wide if takes_literal(&state.level) => Err(TextFault::WiderNumber(place)),
        Token::OpenText if takes_literal(&state.level) => {
            Err(TextFault::Unclosed(first_open(&state.opens, place)))
        }
        Token::Wide | Token::OpenText | Token::Faulty => Err(TextFault::BadToken(place)),
    }
}

fn finish(at: usize, state: State) -> Result<Items<Node>, TextFault>
    ensures { AnswersUnlessFull text_fault (λ ns. ns) result (finish at state.level state.opens) }
{
    let State { level, opens } = state;
    if opens.len() == 0 {
        ended(at, level)
    } else {
        Err(TextFault::Unclosed(first_open(&opens, at)))
    }
}

/// A token, where it begins and where it ends.
#[derive(Drop)]
struct Found {
    at: usize,
    token: Token,
    end: usize,
}

/// The next token from an offset on.
fn next(alloc: Global, b: &[u8], at: usize) -> Result<Option<Found>, NoMemory>
    requires { at ≤ length b.now }
    ensures token { IfOk result (λ o. MatchOption o (tokens_of at (drop at b.now) ≡ [])
        (λ f. tokens_of at (drop at b.now) ≡
        (f.at, f.token) ∷ tokens_of f.end (drop f.end b.now))) }
    ensures within { IfOk result (λ o. IfSome o (λ f.
        (at < f.end) × (f.at < f.end) × (f.end ≤ length b.now))) }
{
    let rest = rest_from(b, at);
    match skip(rest) {
        Gap::End => Ok(None),
        Gap::Comment(left) => Ok(Some(Found {
            at: b.len() - left,
            token: Token::OpenComment,
            end: b.len(),
        })),
        Gap::Token(left) => {
            let start = b.len() - left;
            let (token, taken) = token_at(alloc, rest_from(b, start))?;
            Ok(Some(Found {
                at: start,
                token,
                end: start + taken,
            }))
        }
    }
}

fn read(alloc: Global, b: &[u8]) -> Result<Items<Node>, TextFault>
    requires { length b.now < 2 ^ 32 }
    ensures { AnswersUnlessFull text_fault (λ ns. ns) result (reading b.now) }
{
    let mut state = State {
        level: Level::Start(Items::new(alloc)),
        opens: Pile::new(alloc),
    };
    let mut at = 0;
    loop {
        let Some(found) = next(alloc, b, at)? else {
            return finish(b.len(), state);
        };
        state = step(alloc, found.at as u32, found.token, state)?;
        at = found.end;
    }
}

/// The nodes of a text.
pub fn read_nodes(alloc: Global, b: &[u8]) -> Result<Items<Node>, TextFault>
    requires { length b.now < 2 ^ 32 }
    // What is read is a text of the grammar, with these nodes.
    ensures found { IfOk result (λ ns. IsTextOf b.now ns) }
    // What is a text of the grammar is read, unless memory runs out.
    ensures only { (ns : List Node) →
        IsTextOf b.now ns → AnswersUnlessFull text_fault (λ x. x) result (Ok ns) }
    // A fault is the first one: up to it a text of the grammar goes on, and with it none does.
    ensures fault { IfErr result (λ f. (f ≡ NoMemory) ⊎ IsFaultOf b.now f) }
{
    read(alloc, b)
}
