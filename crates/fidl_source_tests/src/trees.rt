// Worked cases: a tree yields its words, in order, for each production.
use fidl_span::{Span, Word, WordKind};
use fidl_tree::*;
use std::alloc::{AllocError, Global};
use std::test::Fail;

mod headers;
mod layouts;
mod parts;
mod point;
mod protocols;
mod types;

use headers::{library, plain_import, renamed_import};
use layouts::{bits, structure, table, type_declaration, union_with_member, union_without_member};
use parts::{Places, three};
use protocols::{protocol, resource_definition, service};
use types::{alias, constant};

/// Adds a declaration of each layout.
fn push_types(
    alloc: Global,
    at: &mut Places,
    all: &mut Vec<Declaration>,
) -> Result<(), AllocError> {
    all.push(type_declaration(alloc, three(at), bits(alloc, at)?, at))?;
    all.push(type_declaration(alloc, three(at), structure(alloc, at)?, at))?;
    all.push(type_declaration(alloc, three(at), table(alloc, at)?, at))?;
    all.push(type_declaration(alloc, three(at), union_with_member(alloc, at)?, at))?;
    all.push(type_declaration(alloc, three(at), union_without_member(alloc, at), at))?;
    Ok(())
}

/// A declaration of each kind.
fn declarations(alloc: Global, at: &mut Places) -> Result<Vec<Declaration>, AllocError> {
    let mut all = Vec::new(alloc);
    all.push(constant(alloc, at)?)?;
    all.push(alias(alloc, at)?)?;
    push_types(alloc, at, &mut all)?;
    all.push(protocol(alloc, at)?)?;
    all.push(service(alloc, at)?)?;
    all.push(resource_definition(alloc, at)?)?;
    Ok(all)
}

/// An import of each form.
fn imports(alloc: Global, at: &mut Places) -> Result<Vec<Import>, AllocError> {
    let mut all = Vec::new(alloc);
    all.push(renamed_import(alloc, at)?)?;
    all.push(plain_import(alloc, at))?;
    Ok(all)
}

/// A file in which each production stands.
fn whole_file(alloc: Global, at: &mut Places) -> Result<File<'static>, AllocError> {
    let library = library(alloc, at)?;
    let imports = imports(alloc, at)?;
    let declarations = declarations(alloc, at)?;
    Ok(File {
        src: b"",
        library,
        imports,
        declarations,
    })
}

/// The words of `source`, which has one letter for each: its kind by its symbol, `i` for an
/// identifier, `1` for a number, `s` for a string and `A` for an arrow. Blanks stand for nothing.
fn words_of(alloc: Global, source: &[u8]) -> Result<Vec<Word>, AllocError> {
    let mut words = Vec::new(alloc);
    for letter in source {
        let kind = match letter {
            b'i' => WordKind::Identifier,
            b'1' => WordKind::Number,
            b's' => WordKind::String,
            b';' => WordKind::Semicolon,
            b':' => WordKind::Colon,
            b',' => WordKind::Comma,
            b'.' => WordKind::Dot,
            b'=' => WordKind::Equals,
            b'|' => WordKind::Bar,
            b'@' => WordKind::At,
            b'(' => WordKind::LeftParenthesis,
            b')' => WordKind::RightParenthesis,
            b'{' => WordKind::LeftBrace,
            b'}' => WordKind::RightBrace,
            b'<' => WordKind::Less,
            b'>' => WordKind::Greater,
            b'-' => WordKind::Minus,
            b'A' => WordKind::Arrow,
            _ => continue,
        };
        let at = words.len();
        words.push(Word {
            kind,
            span: Span { from: at, to: at },
        })?;
    }
    Ok(words)
}

#[test]
fn each_production_yields_its_words(rt: HostRuntime) -> Result<(), Fail> {
    let alloc = rt.alloc();
    let wanted = words_of(
        alloc,
        b"@i(i=1,s)ii.i; @i()iiii; ii; ii i<i,1>:<1,-1|(i.i)>=i; ii=i:i; \
          ii=@iii:i{@ii=s;}; ii=ii{@iiii{}:1;}; ii=ii{1:i;1:ii;}; ii=iii{@i1:ii;}; ii=iii{}; \
          @iiii{@iii.i;ii(i)A()ii;i();iAi(i);}; ii{@iii;}; ii:i{i{ii;};};",
    )?;
    let mut at = Places { next: 0 };
    let file = whole_file(alloc, &mut at)?;
    let words = yield_tokens(alloc, &file)?;
    assert_eq!(rt; words.as_slice(), wanted.as_slice());
    Ok(())
}
