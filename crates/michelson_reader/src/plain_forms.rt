//! Instructions that are a word alone.

ghost use Rattle.std.specs.Prelude.{◌≡◌};
ghost use Rattle.michelson_reader.specs.Names.{named, plain_forms, plain_of_cost_1_or_2, plain_of_cost_3, plain_of_cost_5_or_10};

use crate::words::is_word;
use michelson_code::Instr;

/// The instruction that a word alone is written for; `SELF` may have a name and isn't one.
pub(crate) fn plain_form(name: &[u8]) -> Option<Instr>
    ensures { result ≡ named name.now plain_forms }
{
    if let Some(instr) = plain_of_cost_1_or_2(name) {
        return Some(instr);
    }
    if let Some(instr) = plain_of_cost_3(name) {
        return Some(instr);
    }
    plain_of_cost_5_or_10(name)
}

fn plain_of_cost_1_or_2(name: &[u8]) -> Option<Instr>
    ensures { result ≡ named name.now plain_of_cost_1_or_2 }
{
    match name {
        _ if is_word(name, "DROP") => Some(Instr::Drop),
        _ if is_word(name, "DUP") => Some(Instr::Dup),
        _ if is_word(name, "SWAP") => Some(Instr::Swap),
        _ if is_word(name, "UNIT") => Some(Instr::Unit),
        _ if is_word(name, "PAIR") => Some(Instr::Pair),
        _ if is_word(name, "UNPAIR") => Some(Instr::Unpair),
        _ if is_word(name, "CAR") => Some(Instr::Car),
        _ if is_word(name, "CDR") => Some(Instr::Cdr),
        _ if is_word(name, "SOME") => Some(Instr::Some),
        _ if is_word(name, "CONS") => Some(Instr::Cons),
        _ if is_word(name, "RENAME") => Some(Instr::Rename),
        _ if is_word(name, "FAILWITH") => Some(Instr::Failwith),
        _ => None,
    }
}

fn plain_of_cost_3(name: &[u8]) -> Option<Instr>
    ensures { result ≡ named name.now plain_of_cost_3 }
{
    match name {
        _ if is_word(name, "ADD") => Some(Instr::Add),
        _ if is_word(name, "SUB") => Some(Instr::Sub),
        _ if is_word(name, "SUB_MUTEZ") => Some(Instr::SubMutez),
        _ if is_word(name, "NEG") => Some(Instr::Neg),
        _ if is_word(name, "ABS") => Some(Instr::Abs),
        _ if is_word(name, "ISNAT") => Some(Instr::IsNat),
        _ if is_word(name, "INT") => Some(Instr::Int),
        _ if is_word(name, "LSL") => Some(Instr::Lsl),
        _ if is_word(name, "LSR") => Some(Instr::Lsr),
        _ if is_word(name, "AND") => Some(Instr::And),
        _ if is_word(name, "OR") => Some(Instr::Or),
        _ if is_word(name, "XOR") => Some(Instr::Xor),
        _ if is_word(name, "NOT") => Some(Instr::Not),
        _ if is_word(name, "EQ") => Some(Instr::Eq),
        _ if is_word(name, "NEQ") => Some(Instr::Neq),
        _ if is_word(name, "LT") => Some(Instr::Lt),
        _ if is_word(name, "GT") => Some(Instr::Gt),
        _ if is_word(name, "LE") => Some(Instr::Le),
        _ if is_word(name, "GE") => Some(Instr::Ge),
        _ if is_word(name, "SIZE") => Some(Instr::Size),
        _ if is_word(name, "AMOUNT") => Some(Instr::Amount),
        _ if is_word(name, "SENDER") => Some(Instr::Sender),
        _ if is_word(name, "SOURCE") => Some(Instr::Source),
        _ if is_word(name, "SELF_ADDRESS") => Some(Instr::SelfAddress),
        _ if is_word(name, "NOW") => Some(Instr::Now),
        _ if is_word(name, "LEVEL") => Some(Instr::Level),
        _ if is_word(name, "ADDRESS") => Some(Instr::Address),
        _ => None,
    }
}

fn plain_of_cost_5_or_10(name: &[u8]) -> Option<Instr>
    ensures { result ≡ named name.now plain_of_cost_5_or_10 }
{
    match name {
        _ if is_word(name, "COMPARE") => Some(Instr::Compare),
        _ if is_word(name, "MUL") => Some(Instr::Mul),
        _ if is_word(name, "EDIV") => Some(Instr::Ediv),
        _ if is_word(name, "CONCAT") => Some(Instr::Concat),
        _ if is_word(name, "MEM") => Some(Instr::Mem),
        _ if is_word(name, "GET") => Some(Instr::Get),
        _ if is_word(name, "UPDATE") => Some(Instr::Update),
        _ if is_word(name, "GET_AND_UPDATE") => Some(Instr::GetAndUpdate),
        _ if is_word(name, "SHA256") => Some(Instr::Sha256),
        _ if is_word(name, "BALANCE") => Some(Instr::Balance),
        _ if is_word(name, "TRANSFER_TOKENS") => Some(Instr::TransferTokens),
        _ => None,
    }
}
