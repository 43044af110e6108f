// Worked cases: words and faults with their places, and lines and columns.
use fidl_span::{LexFault, Span, WordKind, lex, line_col};
use std::test::Fail;

#[test]
fn reads_words(rt: HostRuntime) -> Result<(), Fail> {
    let cases: [(&[u8], &[(WordKind, usize, usize)]); 11] = [
        (b"", &[]),
        (b" \t\r\n// a comment that ends the source", &[]),
        (b"// caf\xC3\xA9\n//\n", &[]),
        (b"->", &[(WordKind::Arrow, 0, 2)]),
        (
            b"- >",
            &[(WordKind::Minus, 0, 1), (WordKind::Greater, 2, 3)],
        ),
        (
            b"a_1 0X1F 0B01 007",
            &[
                (WordKind::Identifier, 0, 3),
                (WordKind::Number, 4, 8),
                (WordKind::Number, 9, 13),
                (WordKind::Number, 14, 17),
            ],
        ),
        (b"\"a\rb\"", &[(WordKind::String, 0, 5)]),
        (b"\"\\u{10FFFF}\\u{0}\"", &[(WordKind::String, 0, 17)]),
        (b"\"\\\\\\\"\\n\\r\\t\"", &[(WordKind::String, 0, 12)]),
        (b"\"caf\xC3\xA9\"", &[(WordKind::String, 0, 7)]),
        (
            b";:,.=|@(){}<>-",
            &[
                (WordKind::Semicolon, 0, 1),
                (WordKind::Colon, 1, 2),
                (WordKind::Comma, 2, 3),
                (WordKind::Dot, 3, 4),
                (WordKind::Equals, 4, 5),
                (WordKind::Bar, 5, 6),
                (WordKind::At, 6, 7),
                (WordKind::LeftParenthesis, 7, 8),
                (WordKind::RightParenthesis, 8, 9),
                (WordKind::LeftBrace, 9, 10),
                (WordKind::RightBrace, 10, 11),
                (WordKind::Less, 11, 12),
                (WordKind::Greater, 12, 13),
                (WordKind::Minus, 13, 14),
            ],
        ),
    ];
    for (src, want) in cases {
        let tokens = lex(rt.alloc(), src)?;
        assert_eq!(rt; tokens.len(), want.len(), "the words of {src:?}");
        assert_eq!(rt; tokens.is_empty(), want.is_empty(), "the words of {src:?}");
        for (word, (kind, from, to)) in tokens.iter().zip(want) {
            assert_eq!(rt; word.kind, *kind, "in {src:?}");
            assert_eq!(rt;
                word.span,
                Span {
                    from: *from,
                    to: *to
                },
                "in {src:?}"
            );
        }
    }
    Ok(())
}

#[test]
fn reads_a_library(rt: HostRuntime) -> Result<(), Fail> {
    let src = b"library point; type Point = struct {x uint32; y uint32;};";
    let tokens = lex(rt.alloc(), src)?;
    assert_eq!(rt; tokens.as_slice().len(), 16);
    Ok(())
}

#[test]
fn reports_faults(rt: HostRuntime) {
    let cases: [(&[u8], u32, usize, usize); 26] = [
        (b"library t; #", 2, 11, 12),
        (b"/", 2, 0, 1),
        (b"a / b", 2, 2, 3),
        (b"caf\xC3\xA9", 2, 3, 4),
        (b"a_", 3, 0, 2),
        (b"_a", 3, 0, 2),
        (b"x _ y", 3, 2, 3),
        (b"1a", 6, 0, 2),
        (b"1_", 6, 0, 2),
        (b"0b", 6, 0, 2),
        (b"0x", 6, 0, 2),
        (b"0b2", 6, 0, 3),
        (b"\"abc ", 4, 0, 5),
        (b"\"abc\n\"", 4, 0, 4),
        (b"\"a\\q\"", 5, 2, 4),
        (b"\"\\", 5, 1, 2),
        (b"\"\\u{110000}\"", 5, 1, 3),
        (b"\"\\u{D800}\"", 5, 1, 3),
        (b"\"\\u{}\"", 5, 1, 3),
        (b"\"\\u{0000041}\"", 5, 1, 3),
        (b"\"\\u{41\"", 5, 1, 3),
        (b"\"\\u{4G}\"", 5, 1, 3),
        (b"// \xFF", 1, 3, 4),
        (b"\"\xE2\x82\"", 1, 1, 2),
        (b"a \xC3", 1, 2, 3),
        // Not UTF-8, though a bad byte stands before.
        (b"# \xC3", 1, 2, 3),
    ];
    for (src, number, from, to) in cases {
        match lex(rt.alloc(), src) {
            Ok(_) => assert!(rt; false, "{src:?} has words"),
            Err(fault) => {
                assert_eq!(rt; fault.number(), number, "of {src:?}");
                assert_eq!(rt; fault.span(), Some(Span { from, to }), "of {src:?}");
            }
        }
    }
}

#[test]
fn names_faults(rt: HostRuntime) {
    let span = Span { from: 0, to: 1 };
    let cases = [
        (LexFault::NotUtf8 { span }, 1, "NotUtf8"),
        (LexFault::BadByte { span }, 2, "BadByte"),
        (LexFault::BadIdentifier { span }, 3, "BadIdentifier"),
        (LexFault::OpenString { span }, 4, "OpenString"),
        (LexFault::BadEscape { span }, 5, "BadEscape"),
        (LexFault::BadNumber { span }, 6, "BadNumber"),
        (LexFault::Memory, 7, "Memory"),
    ];
    for (fault, number, name) in cases {
        assert_eq!(rt; fault.number(), number);
        assert_eq!(rt; fault.name(), name);
    }
    assert_eq!(rt; LexFault::Memory.span(), None);
}

#[test]
fn reports_lines_and_columns(rt: HostRuntime) {
    let cases: [(&[u8], usize, u64, u64); 9] = [
        (b"library t; #", 11, 1, 12),
        (b"", 0, 1, 1),
        (b"a\nbc\n", 0, 1, 1),
        (b"a\nbc\n", 1, 1, 2),
        (b"a\nbc\n", 2, 2, 1),
        (b"a\nbc\n", 4, 2, 3),
        (b"a\nbc\n", 5, 3, 1),
        (b"a\nbc\n", 99, 3, 1),
        (b"\xC3\xA9x", 2, 1, 3),
    ];
    for (src, at, line, column) in cases {
        assert_eq!(rt; line_col(src, at), (line, column), "{at} in {src:?}");
    }
}
