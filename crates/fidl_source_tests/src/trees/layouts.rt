// Declarations of layouts.
use super::parts::{Places, marked, named, plain, single};
use fidl_span::Span;
use fidl_tree::*;
use std::alloc::{AllocError, Global};

/// `@c strict bits : t { @d M = "s"; }`
pub(super) fn bits(alloc: Global, at: &mut Places) -> Result<Layout, AllocError> {
    Ok(Layout {
        attributes: marked(alloc, at)?,
        body: LayoutBody::Values(ValuesLayout {
            strictness: Some(Strictness::Strict(at.next())),
            keyword: ValuesKeyword::Bits(at.next()),
            underlying: Some(Underlying {
                colon: at.next(),
                named: NamedType {
                    path: plain(alloc, at),
                    arguments: None,
                    constraints: None,
                },
            }),
            left: at.next(),
            members: vec![in alloc;
                ValueMember {
                    attributes: marked(alloc, at)?,
                    name: at.next(),
                    equals: at.next(),
                    value: single(alloc, Operand::String(at.next())),
                    semicolon: at.next(),
                },
            ]?,
            right: at.next(),
        }),
    })
}

/// `flexible enum {}`
fn empty_enum(alloc: Global, at: &mut Places) -> Layout {
    Layout {
        attributes: Vec::new(alloc),
        body: LayoutBody::Values(ValuesLayout {
            strictness: Some(Strictness::Flexible(at.next())),
            keyword: ValuesKeyword::Enum(at.next()),
            underlying: None,
            left: at.next(),
            members: Vec::new(alloc),
            right: at.next(),
        }),
    }
}

/// `resource struct { @e m flexible enum {}:4; }`
pub(super) fn structure(alloc: Global, at: &mut Places) -> Result<Layout, AllocError> {
    Ok(Layout {
        attributes: Vec::new(alloc),
        body: LayoutBody::Struct(StructLayout {
            resource: Some(Resource { keyword: at.next() }),
            keyword: at.next(),
            left: at.next(),
            members: vec![in alloc;
                Member {
                    attributes: marked(alloc, at)?,
                    name: at.next(),
                    constructor: TypeConstructor::Layout {
                        layout: Box::new(alloc, empty_enum(alloc, at))?,
                        constraints: Some(Constraints::Single {
                            colon: at.next(),
                            value: Box::new(
                                alloc,
                                single(
                                    alloc,
                                    Operand::Number {
                                        minus: None,
                                        number: at.next()
                                    }
                                )
                            )?,
                        }),
                    },
                    semicolon: at.next(),
                },
            ]?,
            right: at.next(),
        }),
    })
}

/// `resource table { 1: reserved; 2: n t; }`
pub(super) fn table(alloc: Global, at: &mut Places) -> Result<Layout, AllocError> {
    Ok(Layout {
        attributes: Vec::new(alloc),
        body: LayoutBody::Table(TableLayout {
            resource: Some(Resource { keyword: at.next() }),
            keyword: at.next(),
            left: at.next(),
            members: vec![in alloc;
                OrdinalMember {
                    attributes: Vec::new(alloc),
                    ordinal: at.next(),
                    colon: at.next(),
                    body: OrdinalBody::Reserved(at.next()),
                    semicolon: at.next(),
                },
                OrdinalMember {
                    attributes: Vec::new(alloc),
                    ordinal: at.next(),
                    colon: at.next(),
                    body: OrdinalBody::Typed {
                        name: at.next(),
                        constructor: named(alloc, at)?
                    },
                    semicolon: at.next(),
                },
            ]?,
            right: at.next(),
        }),
    })
}

/// `strict resource union { @f 1: o t; }`
pub(super) fn union_with_member(alloc: Global, at: &mut Places) -> Result<Layout, AllocError> {
    Ok(Layout {
        attributes: Vec::new(alloc),
        body: LayoutBody::Union(UnionLayout {
            modifiers: UnionModifiers::StrictnessFirst {
                strictness: Some(Strictness::Strict(at.next())),
                resource: Some(Resource { keyword: at.next() }),
            },
            keyword: at.next(),
            left: at.next(),
            members: vec![in alloc;
                OrdinalMember {
                    attributes: marked(alloc, at)?,
                    ordinal: at.next(),
                    colon: at.next(),
                    body: OrdinalBody::Typed {
                        name: at.next(),
                        constructor: named(alloc, at)?
                    },
                    semicolon: at.next(),
                },
            ]?,
            right: at.next(),
        }),
    })
}

/// `resource flexible union {}`
pub(super) fn union_without_member(alloc: Global, at: &mut Places) -> Layout {
    Layout {
        attributes: Vec::new(alloc),
        body: LayoutBody::Union(UnionLayout {
            modifiers: UnionModifiers::ResourceFirst {
                resource: Resource { keyword: at.next() },
                strictness: Strictness::Flexible(at.next()),
            },
            keyword: at.next(),
            left: at.next(),
            members: Vec::new(alloc),
            right: at.next(),
        }),
    }
}

/// `type B =`, the layout and `;`
pub(super) fn type_declaration(
    alloc: Global,
    start: [Span; 3],
    layout: Layout,
    at: &mut Places,
) -> Declaration {
    let [keyword, name, equals] = start;
    Declaration {
        attributes: Vec::new(alloc),
        body: DeclarationBody::Type(TypeDeclaration {
            keyword,
            name,
            equals,
            layout,
        }),
        semicolon: at.next(),
    }
}
