//! The calls to which inputs are given.
ghost use Rattle.std.specs.Prelude.{◌<◌};
ghost use Rattle.fidl_table_format.specs.Section.{header_of};

use crate::Stop;
use crate::inputs::{HANDLES, MESSAGE, ROOT, SCRIPT, Worked};
use fidl_compile::{CompileFault, compile};
use fidl_decode::{Scratch, decode};
use fidl_migrate::migrate;
use fidl_reading::{NotationFault, read_value};
use fidl_requests::Ended;
use fidl_script::{Script, ScriptFault};
use fidl_serve::serve_within;
use fidl_streams::Counted;
use fidl_verify::{Table, verify};
use fidl_wire::HandleInfo;
use std::alloc::Global;

/// What an input is.
#[derive(Clone, Copy, PartialEq, Eq, Debug, Drop)]
pub(crate) enum Kind {
    Source,
    Table,
    Message,
    Text,
    Script,
    Stream,
}

impl Kind {
    /// Whether an input of this kind is accepted as it is, and no front of it is.
    pub(crate) fn is_whole(self) -> bool {
        matches!(self, Kind::Table | Kind::Message)
    }

    /// Whether a byte of such an input is changed to this value. A stream gets each bit turned
    /// alone, since a service takes room for the greatest frame each time.
    pub(crate) fn gets(self, kept: u8, value: u8) -> bool {
        self != Kind::Stream || (kept ^ value).count_ones() == 1
    }

    /// The name of inputs of this kind.
    pub(crate) fn name(self) -> &'static str {
        match self {
            Kind::Source => "sources",
            Kind::Table => "tables",
            Kind::Message => "messages",
            Kind::Text => "texts",
            Kind::Script => "scripts",
            Kind::Stream => "streams",
        }
    }
}

/// What the calls need besides an input.
#[derive(Drop)]
pub(crate) struct Desk<'d, 't> {
    pub(crate) alloc: Global,
    pub(crate) table: &'d Table<'t>,
    pub(crate) scratch: Scratch,
    /// Of which type messages are, and which handles they have.
    pub(crate) worked: Worked,
}

/// How many reads a short stream needs at most.
const READS: u64 = 1_000;

/// Compiles a source.
fn give_source(alloc: Global, source: &[u8]) -> Result<bool, Stop> {
    match compile(alloc, &[source]) {
        Ok(_table) => Ok(true),
        Err(CompileFault::Memory) => Err(Stop),
        Err(_) => Ok(false),
    }
}

/// A message and its handles.
#[derive(Clone, Copy, Drop)]
struct Given<'g> {
    bytes: &'g [u8],
    handles: &'g [HandleInfo],
}

/// Decodes a copy of a message by an entry of a table. A refusal has to leave the copy as it came,
/// and so has a release.
fn decode_by(
    alloc: Global,
    table: &Table<'_>,
    entry: u32,
    given: Given<'_>,
    scratch: &mut Scratch,
) -> Result<bool, Stop>
    requires { entry < (header_of table.now).entries }
{
    let Ok(mut copy) = Vec::from_slice(alloc, given.bytes) else {
        return Err(Stop);
    };
    let accepted = match decode(table, entry, &mut copy, given.handles, scratch) {
        Ok(decoded) => {
            let _ = decoded.release();
            true
        }
        Err(_) => false,
    };
    if copy.as_slice() == given.bytes {
        Ok(accepted)
    } else {
        Err(Stop)
    }
}

/// The messages that each entry of a table is to decode: nothing, zeros, and one that was worked
/// out.
const GIVEN: [Given<'_>; 3] = [
    Given {
        bytes: &[],
        handles: &[],
    },
    Given {
        bytes: &[0; 8],
        handles: &[],
    },
    Given {
        bytes: MESSAGE,
        handles: &HANDLES,
    },
];

/// Decodes three messages by an entry of a table, and says whether one is accepted.
fn decode_each(
    alloc: Global,
    table: &Table<'_>,
    entry: u32,
    scratch: &mut Scratch,
) -> Result<bool, Stop>
    requires { entry < (header_of table.now).entries }
{
    let mut accepted = false;
    for given in GIVEN {
        accepted |= decode_by(alloc, table, entry, given, scratch)?;
    }
    Ok(accepted)
}

/// Decodes three messages by each entry of a table, and says how many entries accept one.
fn decode_all(alloc: Global, table: &Table<'_>, scratch: &mut Scratch) -> Result<u64, Stop> {
    let mut accepted = 0u64;
    for entry in 0..table.entries() {
        if decode_each(alloc, table, entry, scratch)? {
            accepted = accepted.saturating_add(1);
        }
    }
    Ok(accepted)
}

/// Migrates a table. What comes of it has to be accepted.
fn migrate_whole(alloc: Global, table: &Table<'_>) -> Result<(), Stop> {
    let Ok(bytes) = migrate(alloc, table) else {
        return Err(Stop);
    };
    match verify(&bytes) {
        Ok(_migrated) => Ok(()),
        Err(_) => Err(Stop),
    }
}

/// Verifies a table; one that is accepted decodes messages, and is migrated.
fn give_table(alloc: Global, scratch: &mut Scratch, bytes: &[u8]) -> Result<bool, Stop> {
    match verify(bytes) {
        Ok(table) => {
            let _accepted = decode_all(alloc, &table, scratch)?;
            migrate_whole(alloc, &table)?;
            Ok(true)
        }
        Err(_) => Ok(false),
    }
}

/// Decodes a message.
fn give_message(desk: &mut Desk<'_, '_>, bytes: &[u8]) -> Result<bool, Stop> {
    let worked = desk.worked;
    match desk.table.root(worked.root) {
        Some(entry) => {
            let given = Given {
                bytes,
                handles: worked.handles,
            };
            decode_by(desk.alloc, desk.table, entry, given, &mut desk.scratch)
        }
        None => Err(Stop),
    }
}

/// Reads the value of a text.
fn give_text(desk: &Desk<'_, '_>, text: &[u8]) -> Result<bool, Stop> {
    let Some(entry) = desk.table.root(ROOT) else {
        return Err(Stop);
    };
    match read_value(desk.alloc, desk.table, entry, text) {
        Ok(_value) => Ok(true),
        Err(NotationFault::Memory) => Err(Stop),
        Err(_) => Ok(false),
    }
}

/// Reads a script.
fn give_script(desk: &Desk<'_, '_>, text: &[u8]) -> Result<bool, Stop> {
    match Script::read(desk.alloc, desk.table, text) {
        Ok(_script) => Ok(true),
        Err(ScriptFault::Memory) => Err(Stop),
        Err(_) => Ok(false),
    }
}

/// Serves a stream.
fn give_stream(desk: &Desk<'_, '_>, stream: &[u8]) -> Result<bool, Stop> {
    let Ok(script) = Script::read(desk.alloc, desk.table, SCRIPT) else {
        return Err(Stop);
    };
    let mut reader = Counted::new(stream);
    let mut writer = Counted::new(Vec::new(desk.alloc));
    match serve_within(
        desk.alloc,
        desk.table,
        &script,
        &mut reader,
        &mut writer,
        READS,
    ) {
        Ok(ended) => Ok(ended == Ended::EndOfInput),
        Err(_) => Err(Stop),
    }
}

/// Gives an input to the calls for its kind, and says whether it is accepted.
pub(crate) fn give(desk: &mut Desk<'_, '_>, kind: Kind, input: &[u8]) -> Result<bool, Stop> {
    match kind {
        Kind::Source => give_source(desk.alloc, input),
        Kind::Table => give_table(desk.alloc, &mut desk.scratch, input),
        Kind::Message => give_message(desk, input),
        Kind::Text => give_text(desk, input),
        Kind::Script => give_script(desk, input),
        Kind::Stream => give_stream(desk, input),
    }
}
