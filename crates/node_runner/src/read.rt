//! Reading one line of a script.

ghost use Rattle.std.specs.Prelude.{◌≡◌, ◌+◌, ◌*◌, ◌^◌, ◌==◌, ◌∷◌, slice_index, true, false, nat_lt, if◌then◌else◌, Some, None, Ok, Err, IfOk, MatchOption, Option, IsErrOf};
ghost use Rattle.std.specs.List.{list_all, AllPass};
ghost use Rattle.std.specs.Char.{is_ascii_digit, digit_value};
ghost use Rattle.std.specs.Str.Parse.{digits_value};
ghost use Rattle.node_runner.specs.Script.{is_name_byte, is_name, name_of, number_of, number32_of, hex_of, mode_of, words_of, only_word, fill_of, body_of, disks_command, volume_command, put_command, get_command, spelled_by, command_at, is_passed_over};
ghost use Rattle.node_runner.specs.Reading.{Reads};

use crate::command::{Body, Command};
use crate::words::next_word;
use code_mode::Mode;
use hex::FromHexError;
use std::alloc::{AllocError, Global};
use thiserror::Error;
use unit_id::Bytes;

/// Why a line gave no command.
#[derive(Debug, Drop, Error)]
pub enum CommandFault {
    /// The language has no such line.
    #[error("no such line is in the language")]
    Bad,
    /// The allocator had no memory left.
    #[error("out of memory")]
    Memory,
}

impl From<AllocError> for CommandFault {
    ghost use Rattle.node_runner.specs.declared.read.CommandFault.TheVariants.{Memory};

    ghost from_gives = { λ _ e. e ≡ Memory };

    fn from(_error: AllocError) -> CommandFault {
        CommandFault::Memory
    }
}

/// The most digits that a number has.
const NUMBER_DIGITS: usize = 20;

/// The most bytes that a name has.
const NAME_BYTES: usize = 64;

/// The number with one digit more at its end, where it is below 2^64.
fn with_digit(value: u64, digit: u8) -> Option<u64>
    requires { is_ascii_digit digit ≡ true }
    ensures { result ≡ (if nat_lt (value * 10 + digit_value digit) (2 ^ 64) then Some (value * 10 + digit_value digit) else None) }
{
    value.checked_mul(10)?.checked_add(u64::from(digit - b'0'))
}

/// The value of decimal digits, where it is below 2^64.
fn value_of_digits(digits: &[u8]) -> Option<u64>
    requires { AllPass is_ascii_digit digits.now }
    ensures { result ≡ (if nat_lt (digits_value 10 digits.now) (2 ^ 64) then Some (digits_value 10 digits.now) else None) }
{
    let mut value: u64 = 0;
    for digit in digits {
        value = with_digit(value, *digit)?;
    }
    Some(value)
}

/// Whether each byte is a decimal digit.
fn are_digits(word: &[u8]) -> bool
    ensures { result ≡ list_all is_ascii_digit word.now }
{
    word.iter().all(|byte| byte.is_ascii_digit())
}

/// The number that a word spells: 1 to 20 decimal digits, with a value below 2^64.
fn number(word: &[u8]) -> Option<u64>
    ensures { result ≡ number_of word.now }
{
    if word.is_empty() || word.len() > NUMBER_DIGITS || !are_digits(word) {
        return None;
    }
    value_of_digits(word)
}

/// The number below 2^32 that a word spells.
fn number32(word: &[u8]) -> Option<u32>
    ensures { result ≡ number32_of word.now }
{
    u32::try_from(number(word)?).ok()
}

/// Whether a byte may stand in a name.
fn is_name_byte(byte: u8) -> bool
    ensures { result ≡ is_name_byte byte }
{
    byte.is_ascii_alphanumeric() || byte == b'.' || byte == b'_' || byte == b'-'
}

/// Whether each byte may stand in a name.
fn are_name_bytes(word: &[u8]) -> bool
    ensures { result ≡ list_all is_name_byte word.now }
{
    word.iter().all(|byte| is_name_byte(*byte))
}

/// Whether a word is a name: 1 to 64 letters, digits, `.`, `_` and `-`.
fn is_name(word: &[u8]) -> bool
    ensures { result ≡ is_name word.now }
{
    !word.is_empty() && word.len() <= NAME_BYTES && are_name_bytes(word)
}

/// The name that a word is.
fn read_name(alloc: Global, word: &[u8]) -> Result<Bytes, CommandFault>
    ensures { Reads result (name_of word.now) }
{
    if !is_name(word) {
        return Err(CommandFault::Bad);
    }
    Ok(Bytes::from_vec(word.to_vec(alloc)?))
}

/// The bytes that a word spells in hexadecimal.
fn read_hex(alloc: Global, word: &[u8]) -> Result<Bytes, CommandFault>
    ensures { Reads result (hex_of word.now) }
{
    match hex::decode(alloc, word) {
        Ok(bytes) => Ok(Bytes::from_vec(bytes)),
        Err(FromHexError::OutOfMemory) => Err(CommandFault::Memory),
        Err(_) => Err(CommandFault::Bad),
    }
}

/// The mode that a word names.
fn read_mode(word: &[u8]) -> Option<Mode>
    ensures { result ≡ mode_of word.now }
{
    match str::from_utf8(word) {
        Ok(name) => Mode::read_name(name),
        Err(_) => None,
    }
}

/// The only word of a text, where it has just one.
fn only_word(words: &[u8]) -> Option<&[u8]>
    ensures { MatchOption result (only_word (words_of words.now) ≡ None) (λ word. only_word (words_of words.now) ≡ Some word.now) }
{
    let (word, rest) = next_word(words)?;
    match next_word(rest) {
        Some(_) => None,
        None => Some(word),
    }
}

/// `disks D`
fn read_disks(operands: &[u8]) -> Result<Command, CommandFault>
    ensures { Reads result (disks_command (words_of operands.now)) }
{
    let Some(word) = only_word(operands) else {
        return Err(CommandFault::Bad);
    };
    match number32(word) {
        Some(count) => Ok(Command::Disks { count }),
        None => Err(CommandFault::Bad),
    }
}

/// `volume MODE`
fn read_volume(operands: &[u8]) -> Result<Command, CommandFault>
    ensures { Reads result (volume_command (words_of operands.now)) }
{
    let Some(word) = only_word(operands) else {
        return Err(CommandFault::Bad);
    };
    match read_mode(word) {
        Some(mode) => Ok(Command::Volume { mode }),
        None => Err(CommandFault::Bad),
    }
}

/// `SEED LEN`, behind `fill`
fn read_fill(operands: &[u8]) -> Result<Body, CommandFault>
    ensures { Reads result (fill_of (words_of operands.now)) }
{
    let Some((seed, rest)) = next_word(operands) else {
        return Err(CommandFault::Bad);
    };
    let Some(len) = only_word(rest) else {
        return Err(CommandFault::Bad);
    };
    match (number(seed), number(len)) {
        (Some(seed), Some(len)) => Ok(Body::Fill { seed, len }),
        _ => Err(CommandFault::Bad),
    }
}

/// What a put writes: nothing, `HEX`, or `fill SEED LEN`.
fn read_body(alloc: Global, operands: &[u8]) -> Result<Body, CommandFault>
    ensures { Reads result (body_of (words_of operands.now)) }
{
    let Some((word, rest)) = next_word(operands) else {
        return Ok(Body::Plain(Bytes::from_vec(Vec::new(alloc))));
    };
    if word == b"fill".as_slice() {
        return read_fill(rest);
    }
    match next_word(rest) {
        Some(_) => Err(CommandFault::Bad),
        None => Ok(Body::Plain(read_hex(alloc, word)?)),
    }
}

/// `put NAME`, `put NAME HEX`, `put NAME fill SEED LEN`
fn read_put(alloc: Global, operands: &[u8]) -> Result<Command, CommandFault>
    ensures { Reads result (put_command (words_of operands.now)) }
{
    let Some((word, rest)) = next_word(operands) else {
        return Err(CommandFault::Bad);
    };
    let name = read_name(alloc, word)?;
    let body = read_body(alloc, rest)?;
    Ok(Command::Put { name, body })
}

/// `get NAME`
fn read_get(alloc: Global, operands: &[u8]) -> Result<Command, CommandFault>
    ensures { Reads result (get_command (words_of operands.now)) }
{
    let Some(word) = only_word(operands) else {
        return Err(CommandFault::Bad);
    };
    let name = read_name(alloc, word)?;
    Ok(Command::Get { name })
}

/// The command that begins with this word.
fn read_words(alloc: Global, word: &[u8], operands: &[u8]) -> Result<Command, CommandFault>
    ensures { Reads result (spelled_by (word.now ∷ words_of operands.now)) }
{
    if word == b"disks".as_slice() {
        return read_disks(operands);
    }
    if word == b"volume".as_slice() {
        return read_volume(operands);
    }
    if word == b"put".as_slice() {
        return read_put(alloc, operands);
    }
    if word == b"get".as_slice() {
        return read_get(alloc, operands);
    }
    Err(CommandFault::Bad)
}

/// Whether a line that begins with this word is a comment.
fn is_comment(word: &[u8]) -> bool
    ensures { result ≡ (slice_index word.now 0 == 35) }
{
    !word.is_empty() && word[0] == b'#'
}

/// The command that a line spells; `None` for a line without words and for a comment, whose first word
/// begins with `#`. `Bad` where the line is neither and spells no command, or one that may not stand there:
/// `inside` tells that the line stands inside a block.
pub fn read_command(
    alloc: Global,
    line: &[u8],
    inside: bool,
) -> Result<Option<Command>, CommandFault>
    ensures found { IfOk result (λ found. MatchOption found
        (is_passed_over line.now ≡ true)
        (λ command. (is_passed_over line.now ≡ false) × (command_at inside line.now ≡ Some command))) }
    ensures bad { IsErrOf result CommandFault.Bad → (is_passed_over line.now ≡ false) × (command_at inside line.now ≡ None) }
{
    let Some((word, operands)) = next_word(line) else {
        return Ok(None);
    };
    if is_comment(word) {
        return Ok(None);
    }
    let command = read_words(alloc, word, operands)?;
    if inside && !command.may_stand_inside() {
        return Err(CommandFault::Bad);
    }
    Ok(Some(command))
}
