//! Where the text of an argument stands: in the argument, in a file, or in the standard input.
ghost use Rattle.std.specs.Prelude.{◌≡◌, IsErr, IsOk, Ok, IfOk, IfErr, MatchBool};
ghost use Rattle.std.specs.List.{list_all};
ghost use Rattle.hex.specs.Hex.{decode_of, is_hex_digit};
ghost use Rattle.fidl_command_line.specs.Contents.{IsContent, IsMessage, IsNoMessage, is_blank};
ghost use Rattle.fidl_command_line.specs.Contents.{without_blanks, message_of, IsHexFault, IsHeldFault};

use crate::unread::Unread;
use hex::FromHexError;
use std::alloc::{AllocError, Global};

/// Where a text that is no argument stands.
#[derive(Clone, Copy, Debug, Drop)]
pub enum Stored<'a> {
    /// In the file of this name: the argument is `@` and the name.
    File(&'a str),
    /// In the standard input: the argument is `-`.
    Input,
}

/// Where the text of an argument stands.
#[derive(Clone, Copy, Debug, Drop)]
pub enum Content<'a> {
    /// In the argument itself.
    Here(&'a str),
    /// Elsewhere.
    Stored(Stored<'a>),
}

/// The bytes of a message: those that the argument gives, or where they are read from, and whether as
/// they are or as hexadecimal digits.
#[derive(Debug, Drop)]
pub enum Message<'a> {
    Bytes(Vec<u8>),
    Stored { place: Stored<'a>, raw: bool },
}

/// Where the text of an argument stands.
pub fn content_of(text: &str) -> Content<'_>
    ensures { IsContent text.now result }
{
    match text.strip_prefix('@') {
        Some(name) => Content::Stored(Stored::File(name)),
        None if text == "-" => Content::Stored(Stored::Input),
        None => Content::Here(text),
    }
}

fn is_hex_digit(byte: u8) -> bool
    ensures { result ≡ is_hex_digit byte }
{
    matches!(byte, b'A'..=b'F' | b'a'..=b'f' | b'0'..=b'9')
}

fn are_hex_digits(text: &[u8]) -> bool
    ensures { result ≡ list_all is_hex_digit text.now }
{
    text.iter().all(|byte| is_hex_digit(*byte))
}

/// Whether a text is an even number of hexadecimal digits.
fn is_hex(text: &[u8]) -> bool
    ensures { MatchBool result (IsOk (decode_of text.now)) (IsErr (decode_of text.now)) }
{
    text.len() % 2 == 0 && are_hex_digits(text)
}

/// The bytes that hexadecimal digits give.
fn read_bytes(alloc: Global, text: &[u8]) -> Result<Vec<u8>, Unread>
    ensures ok { IfOk result (λ bytes. decode_of text.now ≡ Ok bytes.items) }
    ensures fault_is_true { IfErr result (IsHexFault text.now) }
{
    match hex::decode(alloc, text) {
        Ok(bytes) => Ok(bytes),
        Err(FromHexError::OutOfMemory) if is_hex(text) => Err(Unread::Memory),
        Err(_) => Err(Unread::BadHex),
    }
}

/// The message of the argument HEX.
pub(crate) fn read_message<'a>(
    alloc: Global,
    text: &'a str,
    raw: bool,
) -> Result<Message<'a>, Unread>
    ensures ok { IfOk result (IsMessage text.now raw) }
    ensures fault_is_true { IfErr result (IsNoMessage text.now raw) }
{
    match content_of(text) {
        Content::Stored(place) => Ok(Message::Stored { place, raw }),
        Content::Here(_) if raw => Err(Unread::BadRaw),
        Content::Here(hex) => Ok(Message::Bytes(read_bytes(alloc, hex.as_bytes())?)),
    }
}

/// Whether a byte stands between hexadecimal digits of a file: a blank, a tab, or the end of a line.
fn is_blank(byte: u8) -> bool
    ensures { result ≡ is_blank byte }
{
    matches!(byte, b' ' | b'\t' | b'\r' | b'\n')
}

/// A text without its blanks.
fn without_blanks(alloc: Global, text: &[u8]) -> Result<Vec<u8>, AllocError>
    ensures { IfOk result (λ kept. kept.items ≡ without_blanks text.now) }
{
    let mut kept = Vec::new(alloc);
    for byte in text {
        if !is_blank(*byte) {
            kept.push(*byte)?;
        }
    }
    Ok(kept)
}

/// The bytes of a message that a file or the standard input holds: as they are where `raw`, and else
/// those that its hexadecimal digits give, with blanks and line ends left out. `BadHex` where what is
/// left is no even number of hexadecimal digits; `Memory` where memory ran out.
pub fn message_bytes(alloc: Global, held: Vec<u8>, raw: bool) -> Result<Vec<u8>, Unread>
    ensures ok { IfOk result (λ bytes. message_of raw held.items ≡ Ok bytes.items) }
    ensures fault_is_true { IfErr result (IsHeldFault raw held.items) }
{
    if raw {
        return Ok(held);
    }
    let digits = without_blanks(alloc, &held)?;
    read_bytes(alloc, &digits)
}
