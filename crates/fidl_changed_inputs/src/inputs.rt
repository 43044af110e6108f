//! The inputs, before they are cut or changed.

use crate::Stop;
use fidl_compile::compile;
use fidl_header::Header;
use fidl_migrate::migrate;
use fidl_verify::{Table, verify};
use fidl_wire::HandleInfo;
use std::alloc::Global;

/// A library with a type of each shape of message, and a protocol of two methods.
pub(crate) const SOURCE: &[u8] = b"library s;\n\
    type T = table { 1: a uint8; 2: b string; };\n\
    type Padded = struct { a uint8; b uint32; };\n\
    type Text = struct { value string:optional; };\n\
    type Chosen = struct { u strict union { 1: n uint32; 2: s string:8; }; };\n\
    type Node = struct { next box<Node>; };\n\
    type Listed = struct { v vector<strict enum : uint16 { A = 1; B = 2; }>:4; };\n\
    open protocol P { strict Get(struct {k uint8;}) -> (struct {v uint8;}); flexible F() -> (); };";

/// A table of version 1, of a strict enum with the values 1, 2 and 4: its header, its entry, its
/// values, and its root with the names.
pub(crate) const FIRST_VERSION: &[u8] =
    b"FCT2\x01\0\0\0\x01\0\0\0\0\0\0\0\x03\0\0\0\x01\0\0\0\0\0\0\0\0\0\0\0\x06\0\0\0\0\0\0\0\
    \x0b\x02\x04\0\x04\0\0\0\0\0\0\0\x03\0\0\0\0\0\0\0\0\0\0\0\x08\0\0\0\0\0\0\0\0\0\0\0\x03\0\0\0\
    \x01\0\0\0\0\0\0\0\x02\0\0\0\0\0\0\0\x04\0\0\0\0\0\0\0\
    \x03\0\0\0\x03\0\0\0\0\0\0\0e/Ee/E";

/// The type of the text, and of the message that the entries of tables decode.
pub(crate) const ROOT: &[u8] = b"s/T";

/// A message of that type, whose member of ordinal 5 is unknown and has a handle.
pub(crate) const MESSAGE: &[u8] = &[
    0x05, 0, 0, 0, 0, 0, 0, 0, 0xff, 0xff, 0xff, 0xff, 0xff, 0xff, 0xff, 0xff, 0, 0, 0, 0, 0, 0, 0,
    0, 0, 0, 0, 0, 0, 0, 0, 0, 0, 0, 0, 0, 0, 0, 0, 0, 0, 0, 0, 0, 0, 0, 0, 0, 0x08, 0, 0, 0, 0x01,
    0, 0, 0, 0x11, 0x22, 0x33, 0x44, 0x55, 0x66, 0x77, 0x88,
];

/// The handles of that message.
pub(crate) const HANDLES: [HandleInfo; 1] = [HandleInfo {
    id: 9,
    object_type: 3,
    rights: 1,
}];

/// A message of a type of the library.
#[derive(Clone, Copy, Drop)]
pub(crate) struct Worked {
    pub(crate) root: &'static [u8],
    pub(crate) bytes: &'static [u8],
    pub(crate) handles: &'static [HandleInfo],
}

/// A message of each shape: an unknown member, padding, a text, a union, boxes, and a list.
pub(crate) const MESSAGES: [Worked; 6] = [
    Worked {
        root: ROOT,
        bytes: MESSAGE,
        handles: &HANDLES,
    },
    Worked {
        root: b"s/Padded",
        bytes: &[1, 0, 0, 0, 2, 0, 0, 0],
        handles: &[],
    },
    Worked {
        root: b"s/Text",
        bytes: &[
            2, 0, 0, 0, 0, 0, 0, 0, 0xff, 0xff, 0xff, 0xff, 0xff, 0xff, 0xff, 0xff, 0x68, 0x69, 0,
            0, 0, 0, 0, 0,
        ],
        handles: &[],
    },
    Worked {
        root: b"s/Chosen",
        bytes: &[1, 0, 0, 0, 0, 0, 0, 0, 7, 0, 0, 0, 0, 0, 1, 0],
        handles: &[],
    },
    Worked {
        root: b"s/Node",
        bytes: &[
            0xff, 0xff, 0xff, 0xff, 0xff, 0xff, 0xff, 0xff, 0xff, 0xff, 0xff, 0xff, 0xff, 0xff,
            0xff, 0xff, 0, 0, 0, 0, 0, 0, 0, 0,
        ],
        handles: &[],
    },
    Worked {
        root: b"s/Listed",
        bytes: &[
            2, 0, 0, 0, 0, 0, 0, 0, 0xff, 0xff, 0xff, 0xff, 0xff, 0xff, 0xff, 0xff, 1, 0, 2, 0, 0,
            0, 0, 0,
        ],
        handles: &[],
    },
];

/// A text of a value of the type.
pub(crate) const TEXT: &[u8] =
    b"table(5) {a: 5, b: \"x\\u{e9}\", 5: unknown out 1122334455667788 [handle(9, 3, 1)]}";

/// A script for the protocol.
pub(crate) const SCRIPT: &[u8] =
    b"protocol s/P\nreply s/P.Get {v: 9}\nreply s/P.F union(response: {})\n";

/// The table of version 1 in version 2.
pub(crate) fn migrated_table(alloc: Global) -> Result<Vec<u8>, Stop> {
    let Ok(table) = verify(FIRST_VERSION) else {
        return Err(Stop);
    };
    match migrate(alloc, &table) {
        Ok(migrated) => Ok(migrated),
        Err(_) => Err(Stop),
    }
}

/// The table of the library.
pub(crate) fn table_of(alloc: Global) -> Result<Vec<u8>, Stop> {
    match compile(alloc, &[SOURCE]) {
        Ok(table) => Ok(table),
        Err(_) => Err(Stop),
    }
}

/// Puts the frame of a call of a method behind a stream.
fn put_call(
    stream: &mut Vec<u8>,
    table: &Table<'_>,
    name: &[u8],
    txid: u32,
    body: &[u8],
) -> Result<(), Stop> {
    let Some(protocol) = table.protocol(b"s/P") else {
        return Err(Stop);
    };
    let Some(method) = protocol.method_named(name) else {
        return Err(Stop);
    };
    let header = Header {
        txid,
        flexible: !method.strict(),
        ordinal: method.ordinal(),
    };
    let length = if body.is_empty() { 16u32 } else { 24u32 };
    let parts: [&[u8]; 4] = [&length.to_le_bytes(), &[0; 4], &header.write(), body];
    for part in parts {
        if stream.extend_from_slice(part).is_err() {
            return Err(Stop);
        }
    }
    Ok(())
}

/// A call of each method, as a stream of frames.
pub(crate) fn stream_of(alloc: Global, table: &Table<'_>) -> Result<Vec<u8>, Stop> {
    let mut stream = Vec::new(alloc);
    put_call(&mut stream, table, b"s/P.Get", 1, &[5, 0, 0, 0, 0, 0, 0, 0])?;
    put_call(&mut stream, table, b"s/P.F", 2, &[])?;
    Ok(stream)
}
