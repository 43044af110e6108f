//! Readers and writers that give and take little, fail, or stop.
use crate::cases::{Given, Service, bytes_of};
use fidl_requests::Ended;
use fidl_serve::ServeFault;
use fidl_streams::{Refusal, TestSink, TestSource};
use std::alloc::Global;
use std::process::Abort;
use std::test::Fail;

const GIVEN: Given = Given {
    library: "library s; open protocol P {
        strict Get(struct {k uint8;}) -> (struct {v uint8;});
        flexible F() -> ();
    };",
    script: "protocol s/P\nreply s/P.Get {v: 9}\nreply s/P.F union(response: {})\n",
};

/// Two frames, of 32 and 24 bytes.
const INPUT: &str = "1800000000000000 0100000002000001 s/P.Get 0500000000000000
    1000000000000000 0200000002008001 s/P.F";

/// Their replies, of 32 and 40 bytes.
const OUTPUT: &str = "1800000000000000 0100000002000001 s/P.Get 0900000000000000
    2000000000000000 0200000002008001 s/P.F 0100000000000000 0000000000000100";

/// A service, an input of it, and its whole output.
#[derive(Drop)]
struct Desk {
    service: Service,
    input: Vec<u8>,
    output: Vec<u8>,
}

/// The desk of two frames.
fn two_frames(alloc: Global) -> Result<Desk, Fail> {
    let service = GIVEN.service(alloc)?;
    let input = bytes_of(alloc, &service.table, INPUT)?;
    let output = bytes_of(alloc, &service.table, OUTPUT)?;
    Ok(Desk {
        service,
        input,
        output,
    })
}

/// How a reader and a writer behave: the most bytes a call, the read that fails, the write or flush
/// that goes wrong, and the reads that are allowed.
#[derive(Clone, Copy)]
struct Ways {
    most: usize,
    fails_at: Option<u64>,
    refuses_at: Option<u64>,
    refusal: Refusal,
    reads: u64,
}

/// One byte a call, and nothing fails.
const BY_BYTES: Ways = Ways {
    most: 1,
    fails_at: None,
    refuses_at: None,
    refusal: Refusal::Fails,
    reads: 1000,
};

/// What came of a run.
#[derive(Drop)]
struct Ran {
    result: Result<Ended, ServeFault>,
    written: Vec<u8>,
    reads: u64,
    flushes: u64,
}

impl Desk {
    /// Serves a front of the input.
    fn run(&self, alloc: Global, length: usize, ways: &Ways) -> Result<Ran, Fail> {
        let front = self.input.get(..length).unwrap_or(&self.input);
        let mut room = [0u8; 100];
        let mut reader = TestSource::new(front, ways.most.max(1), ways.fails_at);
        let mut writer = TestSink::new(&mut room, ways.most, ways.refuses_at, ways.refusal);
        let result = self
            .service
            .serve_within(alloc, &mut reader, &mut writer, ways.reads)?;
        Ok(Ran {
            result,
            written: writer.contents().to_vec(alloc)?,
            reads: reader.reads(),
            flushes: writer.flushes(),
        })
    }

    /// A run over the whole input ends so, and writes this many bytes of the output. Each whole
    /// reply is flushed, and nothing else. The answer is how many reads there were.
    fn expect(
        &self,
        rt: &impl Abort,
        alloc: Global,
        ways: &Ways,
        want: Result<Ended, ServeFault>,
        length: usize,
    ) -> Result<u64, Fail> {
        let ran = self.run(alloc, self.input.len(), ways)?;
        assert_eq!(rt; ran.result, want);
        assert_eq!(rt; Some(ran.written.as_slice()), self.output.get(..length));
        assert_eq!(rt; ran.flushes, whole_replies(length));
        Ok(ran.reads)
    }
}

/// How many whole replies the first bytes of the output are.
fn whole_replies(length: usize) -> u64 {
    match length {
        0..=31 => 0,
        32..=71 => 1,
        _ => 2,
    }
}

/// How many bytes of the output are the replies to the first bytes of the input.
fn replied(length: u64) -> usize {
    match length {
        0..=31 => 0,
        32..=55 => 32,
        _ => 72,
    }
}

#[test]
fn input_cut_at_each_length(rt: HostRuntime) -> Result<(), Fail> {
    let alloc = rt.alloc();
    let desk = two_frames(alloc)?;
    assert_eq!(rt; desk.input.len(), 56);
    assert_eq!(rt; desk.output.len(), 72);
    for most in [1, 5, 100] {
        let ways = Ways { most, ..BY_BYTES };
        for length in 0..57usize {
            let ended = match length {
                0 | 32 | 56 => Ended::EndOfInput,
                _ => Ended::BadFrame,
            };
            let written = replied(length as u64);
            let ran = desk.run(alloc, length, &ways)?;
            assert_eq!(rt; ran.result, Ok(ended), "{length}");
            assert_eq!(rt;
                Some(ran.written.as_slice()),
                desk.output.get(..written),
                "{length}"
            );
            assert_eq!(rt; ran.flushes, whole_replies(written), "{length}");
        }
    }
    Ok(())
}

#[test]
fn each_read_fails_in_turn(rt: HostRuntime) -> Result<(), Fail> {
    let alloc = rt.alloc();
    let desk = two_frames(alloc)?;
    for at in 0..57u64 {
        let ways = Ways {
            fails_at: Some(at),
            ..BY_BYTES
        };
        let fault = Err(ServeFault::Read);
        let reads = desk.expect(&rt, alloc, &ways, fault, replied(at))?;
        assert_eq!(rt; reads, at + 1);
    }
    // There is no further read.
    let ways = Ways {
        fails_at: Some(57),
        ..BY_BYTES
    };
    let reads = desk.expect(&rt, alloc, &ways, Ok(Ended::EndOfInput), 72)?;
    assert_eq!(rt; reads, 57);
    Ok(())
}

#[test]
fn each_number_of_reads(rt: HostRuntime) -> Result<(), Fail> {
    let alloc = rt.alloc();
    let desk = two_frames(alloc)?;
    for allowed in 0..57u64 {
        let ways = Ways {
            reads: allowed,
            ..BY_BYTES
        };
        let fault = Err(ServeFault::NeverEnds);
        let reads = desk.expect(&rt, alloc, &ways, fault, replied(allowed))?;
        assert_eq!(rt; reads, allowed);
    }
    for allowed in 57..60u64 {
        let ways = Ways {
            reads: allowed,
            ..BY_BYTES
        };
        let reads = desk.expect(&rt, alloc, &ways, Ok(Ended::EndOfInput), 72)?;
        assert_eq!(rt; reads, 57);
    }
    Ok(())
}

/// The bytes that are written before a call of the writer, which takes a byte a call: 32 writes and
/// a flush, and 40 writes and a flush.
fn written_before(call: usize) -> usize {
    match call {
        0..=32 => call,
        _ => call.saturating_sub(1),
    }
}

#[test]
fn each_write_and_flush_fails_in_turn(rt: HostRuntime) -> Result<(), Fail> {
    let alloc = rt.alloc();
    let desk = two_frames(alloc)?;
    for at in 0..74usize {
        let ways = Ways {
            refuses_at: Some(at as u64),
            ..BY_BYTES
        };
        let written = written_before(at);
        let frames = whole_replies(written);
        let fault = Err(ServeFault::Write { frames });
        desk.expect(&rt, alloc, &ways, fault, written)?;
    }
    // There is no further call.
    let ways = Ways {
        refuses_at: Some(74),
        ..BY_BYTES
    };
    desk.expect(&rt, alloc, &ways, Ok(Ended::EndOfInput), 72)?;
    Ok(())
}

#[test]
fn each_write_takes_none_in_turn(rt: HostRuntime) -> Result<(), Fail> {
    let alloc = rt.alloc();
    let desk = two_frames(alloc)?;
    for at in 0..74usize {
        let ways = Ways {
            refuses_at: Some(at as u64),
            refusal: Refusal::TakesNone,
            ..BY_BYTES
        };
        if at == 32 || at == 73 {
            // The flushes, which are done.
            desk.expect(&rt, alloc, &ways, Ok(Ended::EndOfInput), 72)?;
        } else {
            let written = written_before(at);
            let frames = whole_replies(written);
            let fault = Err(ServeFault::Write { frames });
            desk.expect(&rt, alloc, &ways, fault, written)?;
        }
    }
    Ok(())
}
