//! The printed line of a reply.

ghost use Rattle.std.specs.Prelude.{◌≡◌, ◌∷◌, ◌++◌, [], codes, IfOk, OnOk};
ghost use Rattle.std.specs.Fmt.{decimal};
ghost use Rattle.code_mode.specs.Mode.{mode_name};
ghost use Rattle.hex.specs.Hex.{encode_lower};
ghost use Rattle.node_runner.specs.Text.{spaced, subject_of, ending_of, words_of_reply, text_of_reply};

use crate::command::Command;
use crate::reply::{LineReply, Refusal};
use disk_base::NoMemory;
use std::alloc::Global;
use unit_id::Bytes;

/// Adds a blank and a word to a line.
fn push_word(line: &mut Vec<u8>, word: &[u8]) -> Result<(), NoMemory>
    ensures { OnOk result (line.new.items ≡ line.old.items ++ spaced (word.now ∷ [])) }
{
    line.push(b' ')?;
    line.extend_from_slice(word)?;
    Ok(())
}

/// Adds a blank and a number, decimal and without leading zeros.
fn push_number(alloc: Global, line: &mut Vec<u8>, number: u64) -> Result<(), NoMemory>
    ensures { OnOk result (line.new.items ≡ line.old.items ++ spaced (decimal number ∷ [])) }
{
    let digits = format!(in alloc; "{number}")?;
    push_word(line, digits.as_bytes())
}

/// Adds a word and a number, each after a blank.
fn push_field(alloc: Global, line: &mut Vec<u8>, word: &[u8], number: u64) -> Result<(), NoMemory>
    ensures { OnOk result (line.new.items ≡ line.old.items ++ spaced (word.now ∷ decimal number ∷ [])) }
{
    push_word(line, word)?;
    push_number(alloc, line, number)
}

/// Adds a blank and bytes as lower case hexadecimal.
fn push_hex(alloc: Global, line: &mut Vec<u8>, bytes: &[u8]) -> Result<(), NoMemory>
    ensures { OnOk result (line.new.items ≡ line.old.items ++ spaced (encode_lower bytes.now ∷ [])) }
{
    let digits = hex::encode(alloc, bytes)?;
    push_word(line, digits.as_bytes())
}

/// Adds the words that say which command was refused.
fn push_subject(line: &mut Vec<u8>, command: &Command) -> Result<(), NoMemory>
    ensures { OnOk result (line.new.items ≡ line.old.items ++ spaced (subject_of command.now)) }
{
    match command {
        Command::Disks { count: _ } => push_word(line, b"disks"),
        Command::Volume { mode } => {
            push_word(line, b"volume")?;
            push_word(line, mode.name().as_bytes())
        }
        Command::Put { name, body: _ } => {
            push_word(line, b"put")?;
            push_word(line, name.as_slice())
        }
        Command::Get { name } => {
            push_word(line, b"get")?;
            push_word(line, name.as_slice())
        }
    }
}

/// Adds the words that say why a command was refused.
#[tactic(auto, using(crate::proofs::Lines::appends))]
fn push_ending(alloc: Global, line: &mut Vec<u8>, cause: &Refusal) -> Result<(), NoMemory>
    ensures { OnOk result (line.new.items ≡ line.old.items ++ spaced (ending_of cause.now)) }
{
    match cause {
        Refusal::Given { have } => push_field(alloc, line, b"given", u64::from(*have)),
        Refusal::Limit => push_word(line, b"limit"),
        Refusal::FewDisks { have, need } => {
            push_field(alloc, line, b"few-disks", u64::from(*have))?;
            push_number(alloc, line, u64::from(*need))
        }
        Refusal::Empty => push_word(line, b"empty"),
        Refusal::TooLarge => push_word(line, b"too-large"),
        Refusal::NameTaken => push_word(line, b"name-taken"),
        Refusal::NoName => push_word(line, b"no-name"),
        Refusal::NoVolume => push_word(line, b"no-volume"),
    }
}

/// Adds the words of a reply, one blank apart.
#[tactic(auto, using(crate::proofs::Lines::appends))]
fn push_reply(alloc: Global, line: &mut Vec<u8>, reply: &LineReply) -> Result<(), NoMemory>
    ensures { OnOk result (line.new.items ≡ line.old.items ++ words_of_reply reply.now) }
{
    match reply {
        LineReply::Disks { count } => {
            line.extend_from_slice(b"disks")?;
            push_number(alloc, line, u64::from(*count))
        }
        LineReply::Volume { vid, mode } => {
            line.extend_from_slice(b"volume")?;
            push_number(alloc, line, u64::from(*vid))?;
            push_word(line, mode.name().as_bytes())
        }
        LineReply::Put {
            name,
            vid,
            bid,
            size,
        } => {
            line.extend_from_slice(b"put")?;
            push_word(line, name.as_slice())?;
            push_field(alloc, line, b"vid", u64::from(*vid))?;
            push_field(alloc, line, b"bid", *bid)?;
            push_field(alloc, line, b"size", u64::from(*size))
        }
        LineReply::Got { name, bytes } => {
            line.extend_from_slice(b"got")?;
            push_word(line, name.as_slice())?;
            push_hex(alloc, line, bytes.as_slice())
        }
        LineReply::Refused { command, cause } => {
            line.extend_from_slice(b"refused")?;
            push_subject(line, command)?;
            push_ending(alloc, line, cause)
        }
    }
}

/// The line of a reply, with its line feed. Numbers are decimal, bytes lower case hexadecimal, and
/// words stand one blank apart.
///
/// # Errors
/// `NoMemory`, where the allocator has no room for the line.
pub fn print_reply(alloc: Global, reply: &LineReply) -> Result<Bytes, NoMemory>
    ensures line { IfOk result (λ text. text ≡ text_of_reply reply.now) }
{
    let mut line = Vec::new(alloc);
    push_reply(alloc, &mut line, reply)?;
    line.push(b'\n')?;
    Ok(Bytes::from_vec(line))
}
