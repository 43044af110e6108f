// Worked cases: values, at the types of constants and at others.
ghost use Rattle.std.specs.Prelude.{◌<◌, length};
ghost use Rattle.fidl_consts.specs.Tables.{AreConsts};

use fidl_const::{Consts, evaluate};
use fidl_consts::{ConstType, ConstValue, NumberKind};
use fidl_named::{DeclarationId, Meaning, Named};
use fidl_test_sources::{Parsed, named, trees};
use fidl_tree::{DeclarationBody, File, Value};
use std::alloc::Global;
use std::test::Fail;

/// The value that the declaration of this number has of its own.
fn value_in(
    alloc: Global,
    named: &Named<'_, '_>,
    index: usize,
) -> Result<Option<ConstValue>, Fail> {
    let consts = evaluate(alloc, named)?;
    let declared = Meaning::Declared(DeclarationId { file: 0, index });
    let entry = consts.value_of(alloc, named, declared)?;
    Ok(entry.map(|entry| entry.value))
}

/// The same in files.
fn value_of(alloc: Global, files: &Parsed<'_>, index: usize) -> Result<Option<ConstValue>, Fail> {
    let named = named(alloc, files)?;
    value_in(alloc, &named, index)
}

/// The same in a source.
fn value_at(alloc: Global, src: &[u8], index: usize) -> Result<Option<ConstValue>, Fail> {
    let files = trees(alloc, &[src])?;
    value_of(alloc, &files, index)
}

/// The value that the first declaration of a source has of its own.
fn first_value(alloc: Global, src: &[u8]) -> Result<Option<ConstValue>, Fail> {
    value_at(alloc, src, 0)
}

#[test]
fn gives_the_bytes_of_strings(rt: HostRuntime) -> Result<(), Fail> {
    let cases: [(&[u8], &[u8]); 9] = [
        (b"library t; const A string = \"\";", b""),
        (b"library t; const A string = \"abc\";", b"abc"),
        (
            b"library t; const A string = \"caf\xC3\xA9\";",
            b"caf\xC3\xA9",
        ),
        (
            b"library t; const A string = \"\\\\\\\"\\n\\r\\t\";",
            b"\\\"\n\r\t",
        ),
        (
            b"library t; const A string = \"\\u{1F600}\";",
            b"\xF0\x9F\x98\x80",
        ),
        (b"library t; const A string = \"\\u{7F}\";", b"\x7F"),
        (
            b"library t; const A string = \"\\u{e9}\\u{0020AC}\";",
            b"\xC3\xA9\xE2\x82\xAC",
        ),
        (b"library t; const A string = \"a\\u{0}b\";", b"a\0b"),
        (
            b"library t; const A string = \"\\\\u{41}\\nu\";",
            b"\\u{41}\nu",
        ),
    ];
    for (src, want) in cases {
        let Some(ConstValue::Text(bytes)) = first_value(rt.alloc(), src)? else {
            return Err("a string".into());
        };
        assert_eq!(rt; bytes.as_slice(), want, "the bytes of {src:?}");
    }
    Ok(())
}

/// The expression of a file's first constant.
fn first_expression<'f>(file: &'f File<'_>) -> Result<&'f Value, Fail> {
    let first = file.declarations.first().ok_or("a declaration")?;
    match &first.body {
        DeclarationBody::Const(constant) => Ok(&constant.value),
        _ => Err("a constant".into()),
    }
}

/// The number of an expression where a type is wanted, or that of the fault; 0 for another value.
fn number_where(
    alloc: Global,
    named: &Named<'_, '_>,
    consts: &Consts,
    wanted: ConstType,
    value: &Value,
) -> Result<i128, u32>
    requires consts { AreConsts named.now consts.now }
    requires file { 0 < length named.now }
{
    match consts.value_of_expression(alloc, named, 0, wanted, value) {
        Ok(ConstValue::Number(number)) => Ok(number),
        Ok(_) => Err(0),
        Err(fault) => Err(fault.number()),
    }
}

#[test]
fn reads_an_expression_where_another_type_is_wanted(rt: HostRuntime) -> Result<(), Fail> {
    let cases: [(ConstType, Result<i128, u32>); 4] = [
        (ConstType::Number(NumberKind::Uint64), Ok(300)),
        (ConstType::Number(NumberKind::Uint8), Err(1)),
        (ConstType::Bool, Err(2)),
        (ConstType::String, Err(2)),
    ];
    let alloc = rt.alloc();
    let files = trees(
        alloc,
        &[b"library t; const A uint16 = B; const B uint32 = 300;"],
    )?;
    let named = named(alloc, &files)?;
    if named.count() == 0 {
        return Err("a file".into());
    }
    let consts = evaluate(alloc, &named)?;
    let value = first_expression(files.file(0)?)?;
    for (wanted, want) in cases {
        let found = number_where(alloc, &named, &consts, wanted, value);
        assert_eq!(rt; found, want, "the value where {wanted:?} is wanted");
    }
    Ok(())
}

#[test]
fn reads_no_constraint_of_a_type_that_is_no_string(rt: HostRuntime) -> Result<(), Fail> {
    let numbers: [(&[u8], usize); 5] = [
        (b"library t; const X uint32:X = 5;", 0),
        (b"library t; alias A = uint32:X; const X A = 5;", 1),
        (b"library t; const X uint32:Y = 5; const Y uint32 = X;", 0),
        (b"library t; const X uint32:Y = 5; const Y uint32 = X;", 1),
        (
            b"library t; type E = enum { X = 5; }; alias A = E:B; const B A = E.X;",
            2,
        ),
    ];
    for (src, index) in numbers {
        let found = value_at(rt.alloc(), src, index)?;
        assert!(rt;
            matches!(found, Some(ConstValue::Number(5))),
            "the number of {index} in {src:?}"
        );
    }
    let truth = value_at(
        rt.alloc(),
        b"library t; alias A = bool:X; const X A = true;",
        1,
    )?;
    assert!(rt;
        matches!(truth, Some(ConstValue::Bool(true))),
        "the truth of a bool"
    );
    Ok(())
}
