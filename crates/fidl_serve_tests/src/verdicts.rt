//! What a frame asks for, by its header, its method and its body.
use crate::cases::{Given, expect};
use std::test::Fail;

const CLOSED: Given = Given {
    library: "library s; closed protocol P {};",
    script: "protocol s/P\n",
};

const AJAR: Given = Given {
    library: "library s; ajar protocol P {};",
    script: "protocol s/P\n",
};

const OPEN: Given = Given {
    library: "library s; open protocol P {};",
    script: "protocol s/P\n",
};

const STRICT_ONE_WAY: &str = "1000000000000000 0000000002000001 ba7816bf8f01cf6a -> StrictUnknown";

const STRICT_TWO_WAY: &str = "1000000000000000 0700000002000001 ba7816bf8f01cf6a -> StrictUnknown";

#[test]
fn unknown_ordinals_by_openness(rt: HostRuntime) -> Result<(), Fail> {
    let alloc = rt.alloc();
    let closed = [
        STRICT_ONE_WAY,
        STRICT_TWO_WAY,
        "1000000000000000 0000000002008001 ba7816bf8f01cf6a -> StrictUnknown",
        "1000000000000000 0700000002008001 ba7816bf8f01cf6a -> StrictUnknown",
    ];
    expect(&rt, alloc, &CLOSED, &closed)?;
    let ajar = [
        STRICT_ONE_WAY,
        STRICT_TWO_WAY,
        "1000000000000000 0000000002008001 ba7816bf8f01cf6a -> EndOfInput",
        "1000000000000000 0700000002008001 ba7816bf8f01cf6a -> StrictUnknown",
    ];
    expect(&rt, alloc, &AJAR, &ajar)?;
    let open = [
        STRICT_ONE_WAY,
        STRICT_TWO_WAY,
        "1000000000000000 0000000002008001 ba7816bf8f01cf6a -> EndOfInput",
        "1000000000000000 0700000002008001 ba7816bf8f01cf6a \
         -> 2000000000000000 0700000002008001 ba7816bf8f01cf6a 0300000000000000 feffffff00000100 \
         EndOfInput",
    ];
    expect(&rt, alloc, &OPEN, &open)
}

const METHODS: Given = Given {
    library: "library s; open protocol P {
        strict Get(struct {k uint8;}) -> (struct {v uint8;});
        strict Ping() -> ();
        flexible Put(struct {k uint8;});
        flexible -> OnPut(struct {k uint8;});
    };",
    script: "protocol s/P\nreply s/P.Get {v: 9}\nreply s/P.Ping\n",
};

#[test]
fn wrong_headers_are_bad_messages(rt: HostRuntime) -> Result<(), Fail> {
    let alloc = rt.alloc();
    let cases = [
        // No message at all, and one of 15 bytes.
        "0000000000000000 -> BadMessage",
        "0f00000000000000 0100000002000001 00000000000000 -> BadMessage",
        // The magic number 0, the version bit clear, and the overflow bit set.
        "1000000000000000 0100000002000000 s/P.Ping -> BadMessage",
        "1000000000000000 0100000000000001 s/P.Ping -> BadMessage",
        "1000000000000000 0100000002004001 s/P.Ping -> BadMessage",
        // All other flags are set.
        "1000000000000000 01000000ffffbf01 s/P.Ping \
         -> 1000000000000000 0100000002000001 s/P.Ping EndOfInput",
    ];
    expect(&rt, alloc, &METHODS, &cases)
}

#[test]
fn transaction_ids_by_kind_of_method(rt: HostRuntime) -> Result<(), Fail> {
    let alloc = rt.alloc();
    let cases = [
        "1000000000000000 0000000002000001 s/P.Ping -> BadMessage",
        "1800000000000000 0000000002008001 s/P.Put 0500000000000000 -> EndOfInput",
        "1800000000000000 0100000002008001 s/P.Put 0500000000000000 -> BadMessage",
        // The ordinal of an event is that of no method with a request.
        "1800000000000000 0000000002000001 s/P.OnPut 0500000000000000 -> StrictUnknown",
        "1800000000000000 0000000002008001 s/P.OnPut 0500000000000000 -> EndOfInput",
        "1800000000000000 0100000002008001 s/P.OnPut 0500000000000000 \
         -> 2000000000000000 0100000002008001 s/P.OnPut 0300000000000000 feffffff00000100 \
         EndOfInput",
        // The flexible bit of a known method is not compared.
        "1800000000000000 0000000002000001 s/P.Put 0500000000000000 -> EndOfInput",
    ];
    expect(&rt, alloc, &METHODS, &cases)
}

#[test]
fn wrong_bodies_are_bad_messages(rt: HostRuntime) -> Result<(), Fail> {
    let alloc = rt.alloc();
    let cases = [
        // Too long, too short, padding that is not zero, and a handle.
        "2000000000000000 0100000002000001 s/P.Get 0500000000000000 0000000000000000 -> BadMessage",
        "1000000000000000 0100000002000001 s/P.Get -> BadMessage",
        "1700000000000000 0100000002000001 s/P.Get 05000000000000 -> BadMessage",
        "1800000000000000 0100000002000001 s/P.Get 0500000000000001 -> BadMessage",
        "1800000001000000 0100000002000001 s/P.Get 0500000000000000 010000000200000003000000 \
         -> BadMessage",
        // The same where there is no payload.
        "1800000000000000 0100000002000001 s/P.Ping 0000000000000000 -> BadMessage",
        "1000000001000000 0100000002000001 s/P.Ping 010000000200000003000000 -> BadMessage",
        // One-way methods are judged alike.
        "1000000000000000 0000000002008001 s/P.Put -> BadMessage",
        // A body behind an unknown ordinal is not read.
        "1400000001000000 0000000002008001 ba7816bf8f01cf6a 01020304 010000000200000003000000 \
         -> EndOfInput",
    ];
    expect(&rt, alloc, &METHODS, &cases)
}
