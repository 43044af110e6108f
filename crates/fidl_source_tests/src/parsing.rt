// Worked cases: sources whose trees keep all their words.
use fidl_parse::{ParseFault, parse};
use fidl_span::{Tokens, Word, lex};
use fidl_tree::{File, yield_tokens};
use std::alloc::Global;
use std::process::Abort;
use std::test::Fail;

/// `Point` and its 16 words.
const POINT: &[u8] = b"library point; type Point = struct {x uint32; y uint32;};";

/// Each production with each of its parts, and each choice where a word could be read in two ways.
const SOURCES: &str = r#"
    # The library and its imports.
    library t;
    @a @b() @c(1) @d(x="s", y=-1, z) @e(true | x.y) library a.b.c;
    library library.using; using a.b; using as as as; @x using using;
    # Constants and values.
    library t; const A uint8 = 1; @a const B a.b.C = -0x1F;
    library t; const A bool = true; const B bool = false; const C string = "c";
    library t; const A B = a.b.C | (D | -1) | 0b1; const E F = ((G));
    library t; const A B = struct; const C D = a.true.false; const const const = const;
    # Aliases, type arguments and constraints.
    library t; alias A = b; alias C = d.e.f; alias alias = alias;
    library t; alias A = vector<uint8>:16; alias B = array<vector<C>:optional, 4>;
    library t; alias A = string:<8, optional>; alias B = string:(8 | C.D);
    library t; alias A = B<1, C, struct {}:optional>:<D, E, F>;
    library t; alias A = @a @b(c) table {}; alias D = strict union {}:optional;
    # Layouts.
    library point; type Point = struct {x uint32; y uint32;};
    library t; type A = struct {}; @a type B = @b struct {@c d @e struct {f g;};};
    library t; type A = resource struct {a b:c;}; type D = resource table {};
    library t; type A = table {1: a b; @c 2: reserved; 3: reserved d; 4: reserved reserved;};
    library t; type A = union {1: a b;}; type C = resource union {};
    library t; type A = strict union {}; type B = flexible union {1: reserved;};
    library t; type A = strict resource union {}; type B = flexible resource union {};
    library t; type A = resource strict union {}; type B = resource flexible union {};
    library t; type A = bits {B = 1; @c D = 2 | B;}; type E = enum {F = -1;};
    library t; type A = strict bits : uint8 {}; type B = flexible enum : a.b {C = d;};
    library t; type A = enum : B<C, 1>:D {}; type E = bits : F:<G> {};
    library t; type struct = struct {}; type type = table {};
    # Words of a layout as names of members, and a layout of values inside a member.
    library t; type A = struct {struct uint8; table uint8; strict uint8; bits resource struct {};};
    library t; type A = struct {b enum : uint8 {C = 1;}; d @e strict bits : uint8 {f = 1;};};
    library t; type A = table {1: flexible flexible enum {b = 1;}; 2: union union {};};
    # Protocols.
    library t; protocol P {}; open protocol Q {}; ajar protocol R {}; closed protocol S {};
    library t; protocol P {compose A; @a compose b.C;};
    library t; protocol P {A(); B(C); D(struct {e f;}); @g H(struct {});};
    library t; protocol P {A() -> (); B(C) -> (D); E() -> (struct {f g;}) error uint32;};
    library t; protocol P {A() -> () error strict enum {b = 1;}; C(error) -> (error) error error;};
    library t; protocol P {-> A(); -> B(C); @d strict -> E(); flexible -> F(table {});};
    library t; protocol P {strict A(); flexible B() -> ();};
    # A parenthesis makes a method's name of these words.
    library t; protocol P {compose(); strict(); flexible() -> ();};
    library t; protocol P {strict compose(); flexible strict(); strict flexible(); -> compose();};
    # Services and resource definitions.
    library t; service S {}; @a service T {b client_end:P; @c d client_end:<P, optional>;};
    library t; resource_definition R : uint32 {properties {subtype A; rights b.C;};};
    library t; @a resource_definition properties : strict enum {b = 1;} {properties {};};
"#;

/// The words that the tree of these words yields.
fn yielded(alloc: Global, tokens: &Tokens, src: &[u8]) -> Result<Vec<Word>, Fail> {
    let file = parse(alloc, tokens, src)?;
    Ok(yield_tokens(alloc, &file)?)
}

/// A source has a tree, which yields the source's words.
fn keep_words(rt: &impl Abort, alloc: Global, line: &str) -> Result<(), Fail> {
    let src = line.as_bytes();
    let tokens = lex(alloc, src)?;
    let words = yielded(alloc, &tokens, src)?;
    assert_eq!(rt; words.as_slice(), tokens.as_slice(), "the words of {line}");
    Ok(())
}

#[test]
fn trees_keep_their_words(rt: HostRuntime) -> Result<(), Fail> {
    for line in SOURCES.lines() {
        let source = line.trim();
        if !source.is_empty() && !source.starts_with('#') {
            keep_words(&rt, rt.alloc(), source)?;
        }
    }
    Ok(())
}

#[test]
fn point_has_16_words(rt: HostRuntime) -> Result<(), Fail> {
    let tokens = lex(rt.alloc(), POINT)?;
    assert_eq!(rt; tokens.len(), 16);
    let file: File = parse(rt.alloc(), &tokens, POINT)?;
    assert_eq!(rt; file.imports.len(), 0);
    assert_eq!(rt; file.declarations.len(), 1);
    Ok(())
}

#[test]
fn faults_write_themselves(rt: HostRuntime) -> Result<(), Fail> {
    assert_eq!(rt; ParseFault::Memory.number(), 3);
    assert_eq!(rt; ParseFault::Memory.name(), "Memory");
    assert!(rt; ParseFault::Memory.span().is_none());
    Ok(())
}
