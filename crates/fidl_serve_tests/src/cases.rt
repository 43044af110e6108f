//! How cases are written, and what is asked in them.
//!
//! Bytes are words between blanks. A word of hexadecimal digits is its bytes. A word with a `/` is
//! the full name of a method, and means the eight bytes of its ordinal. Behind the output stands
//! the name of the end.

use fidl_compile::compile;
use fidl_requests::Ended;
use fidl_script::Script;
use fidl_serve::{ServeFault, serve, serve_within};
use fidl_streams::{Counted, Sink, Source};
use fidl_verify::{Table, verify};
use std::alloc::Global;
use std::process::Abort;
use std::test::Fail;

/// The source of a library, and the text of a script for a protocol of it.
#[derive(Clone, Copy)]
pub(crate) struct Given {
    pub(crate) library: &'static str,
    pub(crate) script: &'static str,
}

/// A table, and the text of a script for a protocol of it.
#[derive(Drop)]
pub(crate) struct Service {
    pub(crate) table: Vec<u8>,
    script: &'static str,
}

impl Given {
    /// The service that is given.
    pub(crate) fn service(&self, alloc: Global) -> Result<Service, Fail> {
        Ok(Service {
            table: compile(alloc, &[self.library.as_bytes()])?,
            script: self.script,
        })
    }
}

impl Service {
    /// How all frames of a reader are answered.
    fn serve<R: Source, W: Sink>(
        &self,
        alloc: Global,
        reader: &mut R,
        writer: &mut W,
    ) -> Result<Result<Ended, ServeFault>, Fail> {
        let table = verify(&self.table)?;
        let script = Script::read(alloc, &table, self.script.as_bytes())?;
        Ok(serve(alloc, &table, &script, reader, writer))
    }

    /// How the frames of a reader are answered within a number of reads.
    pub(crate) fn serve_within<R: Source, W: Sink>(
        &self,
        alloc: Global,
        reader: &mut R,
        writer: &mut W,
        reads: u64,
    ) -> Result<Result<Ended, ServeFault>, Fail> {
        let table = verify(&self.table)?;
        let script = Script::read(alloc, &table, self.script.as_bytes())?;
        Ok(serve_within(alloc, &table, &script, reader, writer, reads))
    }
}

/// The bytes of the ordinal of the method of a full name.
fn ordinal_of(table: &Table<'_>, name: &str) -> Option<[u8; 8]> {
    let (protocol, _) = name.split_once('.')?;
    let found = table.protocol(protocol.as_bytes())?;
    let method = found.method_named(name.as_bytes())?;
    Some(method.ordinal().to_le_bytes())
}

/// The bytes that words say.
fn words_bytes(alloc: Global, table: &Table<'_>, words: &str) -> Option<Vec<u8>> {
    let mut bytes = Vec::new(alloc);
    for word in words.split_whitespace() {
        if word.contains('/') {
            bytes.extend_from_slice(&ordinal_of(table, word)?).ok()?;
        } else {
            let more = hex::decode(alloc, word).ok()?;
            bytes.extend_from_slice(more.as_slice()).ok()?;
        }
    }
    Some(bytes)
}

/// The bytes that words say, with the ordinals of a table.
pub(crate) fn bytes_of(alloc: Global, table: &[u8], words: &str) -> Result<Vec<u8>, Fail> {
    let table = verify(table)?;
    match words_bytes(alloc, &table, words) {
        Some(bytes) => Ok(bytes),
        None => Err(Fail::from("words that say no bytes")),
    }
}

/// Compares what a service writes, and how it ends, with each of some lines.
pub(crate) fn expect(
    rt: &impl Abort,
    alloc: Global,
    given: &Given,
    cases: &[&str],
) -> Result<(), Fail> {
    let service = given.service(alloc)?;
    for case in cases {
        let Some((input, answer)) = case.split_once("->") else {
            return Err(Fail::from("a line that is no case"));
        };
        let Some((output, end)) = answer.rsplit_once(' ') else {
            return Err(Fail::from("a case without an end"));
        };
        let input = bytes_of(alloc, &service.table, input)?;
        let output = bytes_of(alloc, &service.table, output)?;
        let mut reader = Counted::new(input.as_slice());
        let mut writer = Counted::new(Vec::new(alloc));
        let ended = service.serve(alloc, &mut reader, &mut writer)?;
        let ended = ended?;
        assert_eq!(rt; ended.name(), end, "{case}");
        let written = writer.into_inner();
        assert_eq!(rt; written.as_slice(), output.as_slice(), "{case}");
    }
    Ok(())
}
