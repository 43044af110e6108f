//! Makes each call of the library that takes memory once, in a fixed order, and prints what each
//! answered (docs/promises.md, "Memory").
//!
//! Of a refused call the name of its fault is printed, and then all calls are made again. So
//! where one allocation of the process is refused, the output shows which call it stopped, and that
//! the same call then succeeds.
#![tactic(auto)]

mod compiling;
mod messages;
mod migrating;
mod serving;
mod telling;

use crate::compiling::{compile_whole, table_of};
use crate::messages::round_trip;
use crate::migrating::migrate_once;
use crate::serving::serve_once;
use crate::telling::{Stop, refused};
use fidl_text::Output;
use fidl_verify::verify;
use std::alloc::Global;
use std::io::Write;

/// A library of one type and one protocol.
const SOURCE: &[u8] = b"library s; type T = struct {s string; v vector<uint16>;}; \
    open protocol P {strict Get(struct {k uint8;}) -> (struct {v uint8;});};";

/// How often all calls are made at most: once more than an allocation can be refused.
const ROUNDS: u32 = 2;

/// Makes all calls.
fn make_calls<W: Write>(alloc: Global, out: &mut Output<W>) -> Result<(), Stop> {
    let bytes = table_of(alloc, SOURCE, out)?;
    compile_whole(alloc, SOURCE, out)?;
    migrate_once(alloc, out)?;
    match verify(&bytes) {
        Ok(table) => {
            round_trip(alloc, &table, out)?;
            serve_once(alloc, &table, out)
        }
        Err(fault) => Err(refused(out, "verify", fault.name())),
    }
}

fn main(rt: HostRuntime) {
    let mut out = Output::new(rt.stdout());
    for _ in 0..ROUNDS {
        if make_calls(rt.alloc(), &mut out).is_ok() {
            return;
        }
    }
}
