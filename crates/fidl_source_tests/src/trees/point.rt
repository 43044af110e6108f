// The tree of a source with a structure of two members.
use super::parts::boxed;
use fidl_span::Span;
use fidl_tree::*;
use std::alloc::{AllocError, Global};
use std::test::Fail;

const POINT: &[u8] = b"library point; type Point = struct {x uint32; y uint32;};";

fn span(from: usize, to: usize) -> Span {
    Span { from, to }
}

fn point_member(
    alloc: Global,
    name: Span,
    path: Span,
    semicolon: Span,
) -> Result<Member, AllocError> {
    let constructor = boxed(
        alloc,
        NamedType {
            path: Path {
                first: path,
                rest: Vec::new(alloc),
            },
            arguments: None,
            constraints: None,
        },
    )?;
    Ok(Member {
        attributes: Vec::new(alloc),
        name,
        constructor,
        semicolon,
    })
}

fn point(alloc: Global) -> Result<File<'static>, AllocError> {
    let x = point_member(alloc, span(36, 37), span(38, 44), span(44, 45))?;
    let y = point_member(alloc, span(46, 47), span(48, 54), span(54, 55))?;
    let layout = Layout {
        attributes: Vec::new(alloc),
        body: LayoutBody::Struct(StructLayout {
            resource: None,
            keyword: span(28, 34),
            left: span(35, 36),
            members: vec![in alloc; x, y]?,
            right: span(55, 56),
        }),
    };
    let declaration = Declaration {
        attributes: Vec::new(alloc),
        body: DeclarationBody::Type(TypeDeclaration {
            keyword: span(15, 19),
            name: span(20, 25),
            equals: span(26, 27),
            layout,
        }),
        semicolon: span(56, 57),
    };
    Ok(File {
        src: POINT,
        library: Library {
            attributes: Vec::new(alloc),
            keyword: span(0, 7),
            path: Path {
                first: span(8, 13),
                rest: Vec::new(alloc),
            },
            semicolon: span(13, 14),
        },
        imports: Vec::new(alloc),
        declarations: vec![in alloc; declaration]?,
    })
}

#[test]
fn point_yields_its_words(rt: HostRuntime) -> Result<(), Fail> {
    let file = point(rt.alloc())?;
    let words = yield_tokens(rt.alloc(), &file)?;
    let wanted: [&[u8]; 16] = [
        b"library", b"point", b";", b"type", b"Point", b"=", b"struct", b"{", b"x", b"uint32",
        b";", b"y", b"uint32", b";", b"}", b";",
    ];
    assert_eq!(rt; words.len(), wanted.len());
    for (word, text) in words.iter().zip(&wanted) {
        assert_eq!(rt; file.text(word.span), *text);
    }
    Ok(())
}

#[test]
fn text_lies_in_the_source(rt: HostRuntime) -> Result<(), Fail> {
    let file = point(rt.alloc())?;
    assert_eq!(rt; file.text(span(8, 13)), b"point".as_slice());
    assert_eq!(rt; file.text(span(55, 90)), b"};".as_slice());
    assert_eq!(rt; file.text(span(90, 91)).len(), 0);
    assert_eq!(rt; file.text(span(13, 8)).len(), 0);
    Ok(())
}
