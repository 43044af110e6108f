//! Calls of methods, known and unknown, and what they are answered.
use crate::cases::{Given, expect};
use std::test::Fail;

const EMPTY: Given = Given {
    library: "library s; open protocol P {};",
    script: "protocol s/P\n",
};

#[test]
fn an_unknown_method_is_answered(rt: HostRuntime) -> Result<(), Fail> {
    let alloc = rt.alloc();
    let cases = [
        "1000000000000000 0700000002008001 ba7816bf8f01cf6a \
         -> 2000000000000000 0700000002008001 ba7816bf8f01cf6a 0300000000000000 feffffff00000100 \
         EndOfInput",
        "1000000000000000 0700000002000001 ba7816bf8f01cf6a -> StrictUnknown",
    ];
    expect(&rt, alloc, &EMPTY, &cases)
}

#[test]
fn frames_end_the_service(rt: HostRuntime) -> Result<(), Fail> {
    let alloc = rt.alloc();
    let cases = [
        " -> EndOfInput",
        "10000000 -> BadFrame",
        "0100010000000000 -> BadFrame",
        // 16,777,217 bytes.
        "0100000100000000 -> BadFrame",
        // 65 handles.
        "1000000041000000 -> BadFrame",
        "1000000000000000 0700000002008001 ba7816bf8f01cf -> BadFrame",
    ];
    expect(&rt, alloc, &EMPTY, &cases)
}

const LIBRARY: &str = "library s; open protocol P {
    strict Get(struct {k uint8;}) -> (struct {v uint8;});
    flexible F() -> ();
};";

const ONE_REPLY_EACH: Given = Given {
    library: LIBRARY,
    script: "protocol s/P\nreply s/P.Get {v: 9}\nreply s/P.F union(response: {})\n",
};

#[test]
fn calls_get_the_replies_of_the_script(rt: HostRuntime) -> Result<(), Fail> {
    let alloc = rt.alloc();
    let cases = [
        "1800000000000000 0100000002000001 s/P.Get 0500000000000000 \
         -> 1800000000000000 0100000002000001 s/P.Get 0900000000000000 EndOfInput",
        "1000000000000000 0200000002008001 s/P.F \
         -> 2000000000000000 0200000002008001 s/P.F 0100000000000000 0000000000000100 EndOfInput",
        "1800000000000000 0000000002000001 s/P.Get 0500000000000000 -> BadMessage",
    ];
    expect(&rt, alloc, &ONE_REPLY_EACH, &cases)
}

const TWO_REPLIES_OF_GET: Given = Given {
    library: LIBRARY,
    script: "protocol s/P\nreply s/P.Get {v: 9}\nreply s/P.F union(response: {})\n\
             reply s/P.Get {v: 10}\n",
};

#[test]
fn each_method_counts_its_own_calls(rt: HostRuntime) -> Result<(), Fail> {
    let alloc = rt.alloc();
    let cases = [
        "1800000000000000 0100000002000001 s/P.Get 0500000000000000 \
         1000000000000000 0200000002008001 s/P.F \
         1800000000000000 0300000002000001 s/P.Get 0500000000000000 \
         1800000000000000 0400000002000001 s/P.Get 0600000000000000 \
         -> 1800000000000000 0100000002000001 s/P.Get 0900000000000000 \
         2000000000000000 0200000002008001 s/P.F 0100000000000000 0000000000000100 \
         1800000000000000 0300000002000001 s/P.Get 0a00000000000000 \
         1800000000000000 0400000002000001 s/P.Get 0a00000000000000 EndOfInput",
        // An end after a reply: the reply is written, and what follows is not read.
        "1800000000000000 0100000002000001 s/P.Get 0500000000000000 \
         1000000000000000 0200000002000001 ba7816bf8f01cf6a \
         1800000000000000 0300000002000001 s/P.Get 0500000000000000 \
         -> 1800000000000000 0100000002000001 s/P.Get 0900000000000000 StrictUnknown",
    ];
    expect(&rt, alloc, &TWO_REPLIES_OF_GET, &cases)
}
