// A file that is refused leaves the set of libraries as it was.
use fidl_names::LibrarySet;
use fidl_test_sources::trees;
use std::test::Fail;

#[test]
fn refused_files_leave_nothing(rt: HostRuntime) -> Result<(), Fail> {
    let files = trees(
        rt.alloc(),
        &[
            b"library t; service A {};",
            b"library t; service B {}; service A {};",
            b"library t; service B {};",
        ],
    )?;
    let (first, refused, second) = (files.file(0)?, files.file(1)?, files.file(2)?);
    let mut set = LibrarySet::new(rt.alloc());
    set.add(first)?;
    for _ in 0..3 {
        let place = set.add(refused).err().and_then(|fault| fault.place());
        assert_eq!(rt; place.map(|place| place.file), Some(1), "the refused file");
    }
    set.add(second)?;
    let place = set.add(refused).err().and_then(|fault| fault.place());
    assert_eq!(rt;
        place.map(|place| (place.file, place.span.from)),
        Some((2, 19)),
        "the name of B"
    );
    Ok(())
}
