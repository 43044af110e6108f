//! Texts that are scripts, and texts that are not.
use crate::cases::{Given, bytes_of, expect};
use fidl_compile::compile;
use fidl_script::Script;
use fidl_serve::serve;
use fidl_streams::Counted;
use fidl_verify::verify;
use std::alloc::Global;
use std::test::Fail;

const LIBRARY: &str = "library s; open protocol P {
    strict Get(struct {k uint8;}) -> (struct {v uint8;});
    strict Ping() -> ();
    strict Put(struct {k uint8;});
};";

/// Without its last line feed, with carriage returns, skipped lines and blanks.
const TEXT: &str = "# A script\n\nprotocol s/P\n# reply s/P.Get {v: 8}\n\
    reply s/P.Get   {v: 9} \r\n\nreply s/P.Ping\n#\nreply s/P.Get {\tv:10}";

#[test]
fn lines_that_are_skipped_and_lines_that_are_not(rt: HostRuntime) -> Result<(), Fail> {
    let alloc = rt.alloc();
    let given = Given {
        library: LIBRARY,
        script: TEXT,
    };
    let cases = [
        "1800000000000000 0100000002000001 s/P.Get 0500000000000000 \
         1000000000000000 0200000002000001 s/P.Ping \
         1800000000000000 0300000002000001 s/P.Get 0500000000000000 \
         -> 1800000000000000 0100000002000001 s/P.Get 0900000000000000 \
         1000000000000000 0200000002000001 s/P.Ping \
         1800000000000000 0300000002000001 s/P.Get 0a00000000000000 EndOfInput",
    ];
    expect(&rt, alloc, &given, &cases)
}

/// What a text is refused with: the fault's number, name and line.
fn refusal(
    alloc: Global,
    table: &[u8],
    text: &[u8],
) -> Result<(u32, &'static str, Option<u64>), Fail> {
    let table = verify(table)?;
    match Script::read(alloc, &table, text) {
        Ok(_) => Ok((0, "Ok", None)),
        Err(fault) => Ok((fault.number(), fault.name(), fault.line())),
    }
}

#[test]
fn texts_that_begin_badly(rt: HostRuntime) -> Result<(), Fail> {
    let alloc = rt.alloc();
    let table = compile(alloc, &[LIBRARY.as_bytes()])?;
    let cases: [(&[u8], u32, &str, Option<u64>); 11] = [
        (b"", 1, "Syntax", Some(1)),
        (b"# nothing\n\n", 1, "Syntax", Some(1)),
        (b"protocol s/P\nreply s/P.Ping\n\xff", 1, "Syntax", Some(1)),
        (b"#\n\nreply s/P.Ping\n", 1, "Syntax", Some(3)),
        (b" protocol s/P\n", 1, "Syntax", Some(1)),
        (b"protocol s/P \n", 1, "Syntax", Some(1)),
        (b"protocol\n", 1, "Syntax", Some(1)),
        (b"#\n\r\nprotocol s/P\n", 1, "Syntax", Some(2)),
        (b"protocol s/Q\n", 2, "UnknownProtocol", None),
        (b"protocol s/P\r\nreply\n", 2, "UnknownProtocol", None),
        (b"protocol s/P\n", 4, "Missing", None),
    ];
    for (text, number, name, line) in cases {
        let told = refusal(alloc, &table, text)?;
        assert_eq!(rt; told, (number, name, line), "{name} {line:?}");
    }
    Ok(())
}

#[test]
fn lines_at_fault(rt: HostRuntime) -> Result<(), Fail> {
    let alloc = rt.alloc();
    let table = compile(alloc, &[LIBRARY.as_bytes()])?;
    // Behind the line `protocol s/P`.
    let cases: [(&str, u32, &str, Option<u64>); 22] = [
        ("reply s/P.Get {v: 9}\n", 4, "Missing", None),
        ("reply s/P.Ping\n", 4, "Missing", None),
        ("# a comment\n # none\n", 1, "Syntax", Some(3)),
        ("\r\n", 1, "Syntax", Some(2)),
        ("reply\n", 1, "Syntax", Some(2)),
        ("reply \n", 1, "Syntax", Some(2)),
        ("reply  s/P.Ping\n", 1, "Syntax", Some(2)),
        ("Reply s/P.Ping\n", 1, "Syntax", Some(2)),
        ("protocol s/P\n", 1, "Syntax", Some(2)),
        (
            "reply s/P.Ping\nreply s/P.None {}",
            3,
            "UnknownMethod",
            Some(3),
        ),
        ("reply s/P.Put {k: 1}\n", 3, "UnknownMethod", Some(2)),
        ("reply s/P.Put\n", 3, "UnknownMethod", Some(2)),
        ("reply Ping\n", 3, "UnknownMethod", Some(2)),
        ("reply s/P.Ping\r\n", 3, "UnknownMethod", Some(2)),
        ("reply s/P.Get\n", 5, "BadValue", Some(2)),
        ("#\n\nreply s/P.Get \n", 5, "BadValue", Some(4)),
        ("reply s/P.Get {v: 256}\n", 5, "BadValue", Some(2)),
        ("reply s/P.Get {v: 9} # nine\n", 5, "BadValue", Some(2)),
        ("reply s/P.Get {k: 9}\n", 5, "BadValue", Some(2)),
        ("reply s/P.Ping {}\n", 5, "BadValue", Some(2)),
        ("reply s/P.Ping \n", 5, "BadValue", Some(2)),
        ("reply s/P.Get {v: -1}\nreply\n", 5, "BadValue", Some(2)),
    ];
    for (lines, number, name, line) in cases {
        let text = format!(in alloc; "protocol s/P\n{lines}")?;
        let told = refusal(alloc, &table, text.as_bytes())?;
        assert_eq!(rt; told, (number, name, line), "{lines}");
    }
    Ok(())
}

#[test]
fn a_flexible_method_wants_a_reply(rt: HostRuntime) -> Result<(), Fail> {
    let alloc = rt.alloc();
    let source = b"library s; open protocol P { flexible F() -> (); };";
    let table = compile(alloc, &[source.as_slice()])?;
    let told = refusal(alloc, &table, "protocol s/P\n".as_bytes())?;
    assert_eq!(rt; told, (4, "Missing", None));
    Ok(())
}

/// A script whose replies number themselves from 0.
fn long_script(alloc: Global, count: u32) -> Result<String, Fail> {
    let mut text = String::new(alloc);
    text.push_str("protocol s/P\n")?;
    for number in 0..count {
        let line = format!(in alloc; "reply s/P.Get {{v: {number}}}\n")?;
        text.push_str(&line)?;
    }
    Ok(text)
}

/// As many calls as there are replies and one more, or their replies.
fn frames(alloc: Global, ordinal: &[u8], count: u32, is_reply: bool) -> Result<Vec<u8>, Fail> {
    let mut all = Vec::new(alloc);
    for call in 0..=count {
        let head = if is_reply { 24u64 } else { 16u64 };
        all.extend_from_slice(&head.to_le_bytes())?;
        all.extend_from_slice(&(call | 0x8000_0000).to_le_bytes())?;
        all.extend_from_slice(&[2, 0, 0, 1])?;
        all.extend_from_slice(ordinal)?;
        if is_reply {
            let value = call.min(count.saturating_sub(1));
            all.extend_from_slice(&u64::from(value).to_le_bytes())?;
        }
    }
    Ok(all)
}

#[test]
fn ten_thousand_replies(rt: HostRuntime) -> Result<(), Fail> {
    let alloc = rt.alloc();
    let source = b"library s; open protocol P { strict Get() -> (struct {v uint32;}); };";
    let bytes = compile(alloc, &[source.as_slice()])?;
    let ordinal = bytes_of(alloc, &bytes, "s/P.Get")?;
    let text = long_script(alloc, 10_000)?;
    let input = frames(alloc, &ordinal, 10_000, false)?;
    let output = frames(alloc, &ordinal, 10_000, true)?;
    let table = verify(&bytes)?;
    let script = Script::read(alloc, &table, text.as_bytes())?;
    let mut reader = Counted::new(input.as_slice());
    let mut writer = Counted::new(Vec::new(alloc));
    let ended = serve(alloc, &table, &script, &mut reader, &mut writer)?;
    assert_eq!(rt; ended.name(), "EndOfInput");
    let written = writer.into_inner();
    assert!(rt; written.as_slice() == output.as_slice());
    Ok(())
}
