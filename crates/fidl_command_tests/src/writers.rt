//! Tests of writers that fail: what is out then, and what is answered.
use crate::listings::POINT_LINES;
use crate::tables::POINT;
use fidl_tool::{File, Listing, Outcome, Output, TypedMessage, decode, table};
use std::alloc::Global;
use std::io;
use std::io::Write;
use std::test::Fail;

/// A writer that takes a number of writes, and then fails.
#[derive(Drop)]
pub(crate) struct Brief {
    held: Vec<u8>,
    left: u32,
}

impl Brief {
    pub(crate) fn new(alloc: Global, left: u32) -> Brief {
        Brief {
            held: Vec::new(alloc),
            left,
        }
    }
}

impl Write for Brief {
    fn write(&mut self, buf: &[u8]) -> io::Result<usize> {
        if self.left == 0 {
            return Err(io::Error::from(io::ErrorKind::BrokenPipe));
        }
        self.left -= 1;
        self.held.extend_from_slice(buf)?;
        Ok(buf.len())
    }

    fn flush(&mut self) -> io::Result<()> {
        Ok(())
    }
}

const FILE: File<'static> = File {
    name: "a.fct",
    bytes: &POINT,
};

fn message_of<'m>(bytes: &'m mut [u8]) -> TypedMessage<'m> {
    TypedMessage {
        root: "Point",
        bytes,
        handles: &[],
    }
}

#[test]
fn an_output_that_fails_at_each_write(rt: HostRuntime) -> Result<(), Fail> {
    let alloc = rt.alloc();
    let text = b"{x: 1, y: 2}\n".as_slice();
    let mut longest = 0;
    for writes in 0..14 {
        let mut out = Output::new(Brief::new(alloc, writes));
        let mut errors = Output::new(Vec::new(alloc));
        let mut bytes = [1, 0, 0, 0, 2, 0, 0, 0];
        let message = message_of(&mut bytes);
        let outcome = decode(alloc, &FILE, message, &mut out, &mut errors);
        let failed = out.failure().is_some();
        let held = out.into_writer().held;
        let told: &[u8] = if failed {
            b"error: the output: broken pipe\n"
        } else {
            b""
        };
        assert!(rt; errors.into_writer().as_slice() == told, "at {writes}");
        assert_eq!(rt; outcome == Outcome::Unwritten, failed, "at {writes}");
        assert_eq!(rt;
            outcome == Outcome::Done,
            held.as_slice() == text,
            "at {writes}"
        );
        assert!(rt; text.starts_with(held.as_slice()), "at {writes}");
        assert!(rt; held.len() >= longest, "at {writes}");
        longest = held.len();
    }
    assert_eq!(rt; longest, text.len());
    Ok(())
}

#[test]
fn errors_that_fail_at_each_write(rt: HostRuntime) -> Result<(), Fail> {
    let alloc = rt.alloc();
    let line = b"decode 3 Truncated at 0\n".as_slice();
    let mut refused = false;
    for writes in 0..10 {
        let mut out = Output::new(Vec::new(alloc));
        let mut errors = Output::new(Brief::new(alloc, writes));
        let outcome = decode(alloc, &FILE, message_of(&mut []), &mut out, &mut errors);
        let failed = errors.failure().is_some();
        assert_eq!(rt; outcome == Outcome::Unwritten, failed, "at {writes}");
        assert!(rt;
            line.starts_with(errors.into_writer().held.as_slice()),
            "at {writes}"
        );
        assert!(rt; out.into_writer().is_empty(), "at {writes}");
        refused = refused || outcome == Outcome::Refused;
    }
    assert!(rt; refused);
    Ok(())
}

#[test]
fn an_output_that_is_full(rt: HostRuntime) -> Result<(), Fail> {
    let alloc = rt.alloc();
    let mut room = [0u8; 6];
    let mut out = Output::new(room.as_mut_slice());
    let mut errors = Output::new(Vec::new(alloc));
    let mut bytes = [1, 0, 0, 0, 2, 0, 0, 0];
    let message = message_of(&mut bytes);
    let outcome = decode(alloc, &FILE, message, &mut out, &mut errors);
    assert_eq!(rt; outcome.status().number(), 3);
    assert!(rt; out.failure().is_some() && errors.failure().is_none());
    let told = b"error: the output: write zero\n".as_slice();
    assert!(rt; errors.into_writer().as_slice() == told);
    assert!(rt; room.as_slice() == b"{x: 1,".as_slice());
    Ok(())
}

#[test]
fn an_output_that_fails_at_each_write_of_a_table(rt: HostRuntime) -> Result<(), Fail> {
    let alloc = rt.alloc();
    let mut longest = 0;
    for writes in 0..120 {
        let mut out = Output::new(Brief::new(alloc, writes));
        let mut errors = Output::new(Vec::new(alloc));
        let outcome = table(&FILE, Listing::Records, &mut out, &mut errors);
        let failed = out.failure().is_some();
        let held = out.into_writer().held;
        let told: &[u8] = if failed {
            b"error: the output: broken pipe\n"
        } else {
            b""
        };
        assert!(rt; errors.into_writer().as_slice() == told, "at {writes}");
        assert_eq!(rt; outcome == Outcome::Unwritten, failed, "at {writes}");
        assert_eq!(rt;
            outcome == Outcome::Done,
            held.as_slice() == POINT_LINES.as_bytes(),
            "at {writes}"
        );
        assert!(rt;
            POINT_LINES.as_bytes().starts_with(held.as_slice()),
            "at {writes}"
        );
        assert!(rt; held.len() >= longest, "at {writes}");
        longest = held.len();
    }
    assert_eq!(rt; longest, POINT_LINES.len());
    Ok(())
}
