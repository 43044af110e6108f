//! Lines of words with one blank between (docs/program.md, "table").
ghost use Rattle.std.specs.Prelude.{◌≡◌, ◌++◌, OnOk, OnErr, IsSome, codes, map, decimal};
ghost use Rattle.fidl_text.specs.Words.{word_text, name_word, payload_word, words_line};
ghost use Rattle.fidl_text.specs.Outputs.{Writes};

use crate::hex::write_hex;
use crate::output::Output;
use crate::quoted::write_decimal;
use fidl_streams::Failed;
use std::io::Write;

/// What a method's record has in place of a payload's entry where there is none.
const NO_PAYLOAD: u32 = 0xffff_ffff;

/// A word of a line.
#[derive(Clone, Copy, Debug, Drop)]
pub enum Word<'t> {
    /// A text as it is.
    Text(&'t str),
    /// A name; `-` where it is empty.
    Name(&'t [u8]),
    /// A number, in decimal digits.
    Number(u64),
    /// A number, in decimal digits, and a comma.
    Counted(u64),
    /// An ordinal, in 16 hex digits.
    Ordinal(u64),
    /// The entry of a payload; `-` where there is none.
    Payload(u32),
}

/// Writes a name, or that it is empty.
fn write_name<W: Write>(name: &[u8], out: &mut Output<W>) -> Result<(), Failed>
    ensures text { Writes (W.contents out.old.writer) (W.contents out.new.writer)
        (name_word name.now) result }
    ensures kept { OnOk result (out.new.failure ≡ out.old.failure) }
    ensures failed { OnErr result (IsSome out.new.failure) }
{
    out.write_all(if name.is_empty() { b"-" } else { name })
}

/// Writes the entry of a payload, or that there is none.
fn write_payload<W: Write>(entry: u32, out: &mut Output<W>) -> Result<(), Failed>
    ensures text { Writes (W.contents out.old.writer) (W.contents out.new.writer)
        (payload_word entry) result }
    ensures kept { OnOk result (out.new.failure ≡ out.old.failure) }
    ensures failed { OnErr result (IsSome out.new.failure) }
{
    if entry == NO_PAYLOAD {
        return out.write_all(b"-");
    }
    write_decimal(entry as u64, out)
}

/// Writes a number and a comma.
fn write_counted<W: Write>(number: u64, out: &mut Output<W>) -> Result<(), Failed>
    ensures text { Writes (W.contents out.old.writer) (W.contents out.new.writer)
        (decimal number ++ codes ",") result }
    ensures kept { OnOk result (out.new.failure ≡ out.old.failure) }
    ensures failed { OnErr result (IsSome out.new.failure) }
{
    write_decimal(number, out)?;
    out.write_all(b",")
}

/// Writes a word.
fn write_word<W: Write>(word: Word<'_>, out: &mut Output<W>) -> Result<(), Failed>
    ensures text { Writes (W.contents out.old.writer) (W.contents out.new.writer)
        (word_text word.entry) result }
    ensures kept { OnOk result (out.new.failure ≡ out.old.failure) }
    ensures failed { OnErr result (IsSome out.new.failure) }
{
    match word {
        Word::Text(text) => out.write_all(text.as_bytes()),
        Word::Name(name) => write_name(name, out),
        Word::Number(number) => write_decimal(number, out),
        Word::Counted(number) => write_counted(number, out),
        Word::Ordinal(ordinal) => write_hex(&ordinal.to_be_bytes(), out),
        Word::Payload(entry) => write_payload(entry, out),
    }
}

/// Writes a word behind a blank.
fn write_next<W: Write>(word: Word<'_>, out: &mut Output<W>) -> Result<(), Failed>
    ensures text { Writes (W.contents out.old.writer) (W.contents out.new.writer)
        (codes " " ++ word_text word.entry) result }
    ensures kept { OnOk result (out.new.failure ≡ out.old.failure) }
    ensures failed { OnErr result (IsSome out.new.failure) }
{
    out.write_all(b" ")?;
    write_word(word, out)
}

/// Writes a line of words.
pub fn write_words<W: Write>(
    first: &str,
    rest: &[Word<'_>],
    out: &mut Output<W>,
) -> Result<(), Failed>
    ensures text { Writes (W.contents out.old.writer) (W.contents out.new.writer)
        (words_line first.now (map word_text rest.now)) result }
    ensures kept { OnOk result (out.new.failure ≡ out.old.failure) }
    ensures failed { OnErr result (IsSome out.new.failure) }
{
    out.write_all(first.as_bytes())?;
    for word in rest {
        write_next(*word, out)?;
    }
    out.write_all(b"\n")
}
