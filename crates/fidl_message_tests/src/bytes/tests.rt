//! What words of bytes and of handles say.
use crate::bytes::{bytes_of, records_of};
use fidl_wire::HandleInfo;
use std::test::Fail;

#[test]
fn words_are_read(rt: HostRuntime) -> Result<(), Fail> {
    let cases: [(&str, &str, &[u8]); 6] = [
        ("", "01ff  02", &[1, 255, 2]),
        ("0a", "00*3 05", &[10, 0, 0, 0, 5]),
        ("", "01,02*2", &[1, 2, 1, 2]),
        (
            "",
            "0300000000000000:-1*2",
            &[3, 0, 0, 0, 0, 0, 0, 0, 2, 0, 0, 0, 0, 0, 0, 0],
        ),
        ("010203", "1=0708", &[1, 7, 8]),
        ("010203", "..1", &[1]),
    ];
    for (base, text, want) in cases {
        let found = bytes_of(rt.alloc(), base, text).ok_or("bytes")?;
        assert!(rt; found.as_slice() == want, "the bytes of {base} {text}");
    }
    Ok(())
}

#[test]
fn other_words_are_none(rt: HostRuntime) -> Result<(), Fail> {
    for text in ["0", "0g", "01*", "1=02", "..1", "-=01"] {
        assert!(rt; bytes_of(rt.alloc(), "", text).is_none(), "for {text}");
    }
    for text in ["1:2", "1:2:3:4", "a:1:1", "1:1:1*"] {
        assert!(rt; records_of(rt.alloc(), text).is_none(), "for {text}");
    }
    let handle = HandleInfo {
        id: 9,
        object_type: 3,
        rights: 1,
    };
    let found = records_of(rt.alloc(), "9:3:1*2").ok_or("handles")?;
    assert!(rt; found.as_slice() == [handle, handle].as_slice());
    Ok(())
}
