//! Tables that are migrated.
use crate::migrating::migrate;
use fidl_verify::verify;
use std::alloc::Global;
use std::test::Fail;

/// The header and the entry of a strict enum of uint8 with all its 256 values.
const ALL_VALUES: &str = "
    46435432 01000000 01000000 00000000 00010000 00000000 00000000 00000000 00000000 00000000
    0b020100 01000000 00000000 00010000 0000000000000000 06000000 00000000 00000000 00000000
";

/// The bytes of hexadecimal digits in words.
fn bytes_of(alloc: Global, text: &str) -> Result<Vec<u8>, Fail> {
    let mut bytes = Vec::new(alloc);
    for word in text.split_whitespace() {
        let more = hex::decode(alloc, word)?;
        bytes.extend_from_slice(more.as_slice())?;
    }
    Ok(bytes)
}

/// Whether a table is migrated to another one.
fn becomes(alloc: Global, old: &[u8], new: &str) -> Result<bool, Fail> {
    let table = verify(old)?;
    let migrated = migrate(alloc, &table)?;
    let new = bytes_of(alloc, new)?;
    Ok(migrated.as_slice() == new.as_slice())
}

/// `library e; type E = strict enum {A = 1; B = 2; D = 4;};`
#[test]
fn values_are_joined_to_ranges(rt: HostRuntime) -> Result<(), Fail> {
    let values = "
        46435432 01000000 01000000 00000000 03000000 01000000 00000000 00000000 06000000 00000000
        0b020400 04000000 00000000 03000000 0000000000000000 08000000 00000000 00000000 03000000
        0100000000000000 0200000000000000 0400000000000000
        03000000 03000000 00000000 652f45652f45
    ";
    let ranges = "
        46435432 02000000 01000000 00000000 02000000 01000000 00000000 00000000 06000000 00000000
        0b020400 04000000 00000000 02000000 0000000000000000 08000000 00000000 00000000 03000000
        0100000000000000 0200000000000000 0400000000000000 0400000000000000
        03000000 03000000 00000000 652f45652f45
    ";
    let alloc = rt.alloc();
    let one = bytes_of(alloc, values)?;
    let two = bytes_of(alloc, ranges)?;
    assert!(&rt; one.len() == 122 && two.len() == 130);
    assert!(&rt; becomes(alloc, &one, ranges)?);
    assert!(&rt; becomes(alloc, &two, ranges)?);
    Ok(())
}

#[test]
fn all_values_of_uint8_are_one_range(rt: HostRuntime) -> Result<(), Fail> {
    let alloc = rt.alloc();
    let mut values = bytes_of(alloc, ALL_VALUES)?;
    for value in 0..256u64 {
        values.extend_from_slice(&value.to_le_bytes())?;
    }
    assert!(&rt;
        becomes(
            alloc,
            &values,
            "
        46435432 02000000 01000000 00000000 01000000 00000000 00000000 00000000 00000000 00000000
        0b020100 01000000 00000000 01000000 0000000000000000 06000000 00000000 00000000 00000000
        0000000000000000 ff00000000000000
    "
        )?
    );
    Ok(())
}

/// Enums of int8 and uint8, whose values are -1, 0 and 5, and 0, 6 and 7. A flexible one stands
/// between the two.
#[test]
fn ranges_are_of_one_enum(rt: HostRuntime) -> Result<(), Fail> {
    let alloc = rt.alloc();
    let values = bytes_of(
        alloc,
        "
        46435432 01000000 03000000 00000000 06000000 00000000 00000000 00000000 00000000 00000000
        0b020100 01000000 00000000 03000000 0000000000000000 02000000 00000000 00000000 00000000
        0b000100 01000000 03000000 00000000 0000000000000000 06000000 00000000 00000000 00000000
        0b020100 01000000 03000000 03000000 0000000000000000 06000000 00000000 00000000 00000000
        ffffffffffffffff 0000000000000000 0500000000000000
        0000000000000000 0600000000000000 0700000000000000
    ",
    )?;
    assert!(&rt;
        becomes(
            alloc,
            &values,
            "
        46435432 02000000 03000000 00000000 04000000 00000000 00000000 00000000 00000000 00000000
        0b020100 01000000 00000000 02000000 0000000000000000 02000000 00000000 00000000 00000000
        0b000100 01000000 02000000 00000000 0000000000000000 06000000 00000000 00000000 00000000
        0b020100 01000000 02000000 02000000 0000000000000000 06000000 00000000 00000000 00000000
        ffffffffffffffff 0000000000000000 0500000000000000 0500000000000000
        0000000000000000 0000000000000000 0600000000000000 0700000000000000
    "
        )?
    );
    Ok(())
}

/// The closed protocols `p` and `q`, with a strict one-way method each.
#[test]
fn without_enums_only_the_version_changes(rt: HostRuntime) -> Result<(), Fail> {
    let alloc = rt.alloc();
    let rest = "
        00000000 00000000 00000000 00000000 02000000 02000000 02000000 00000000
        00000000 01000000 00000000 01000000
        01000000 01000000 00000000 01000000
        0500000000000000 00000000 01000000 03000000 ffffffff ffffffff 00000000
        0600000000000000 00000000 01000000 03000000 ffffffff ffffffff 00000000
        7071
    ";
    let old = format!(in alloc; "46435432 01000000 {rest}")?;
    let new = format!(in alloc; "46435432 02000000 {rest}")?;
    let values = bytes_of(alloc, &old)?;
    assert!(&rt; becomes(alloc, &values, &new)?);
    Ok(())
}
