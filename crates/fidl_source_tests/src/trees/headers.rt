// The header of a file: its library and its imports.
use super::parts::{Places, dotted, plain, single};
use fidl_tree::*;
use std::alloc::{AllocError, Global};

/// `@a(x = 1, "s") library l.m;`
pub(super) fn library(alloc: Global, at: &mut Places) -> Result<Library, AllocError> {
    let attribute = Attribute {
        at: at.next(),
        name: at.next(),
        arguments: Some(Arguments {
            left: at.next(),
            list: Some(ArgumentList {
                first: Argument {
                    name: Some(ArgumentName {
                        name: at.next(),
                        equals: at.next(),
                    }),
                    value: single(
                        alloc,
                        Operand::Number {
                            minus: None,
                            number: at.next(),
                        },
                    ),
                },
                rest: vec![in alloc;
                    NextArgument {
                        comma: at.next(),
                        argument: Argument {
                            name: None,
                            value: single(alloc, Operand::String(at.next()))
                        },
                    },
                ]?,
            }),
            right: at.next(),
        }),
    };
    Ok(Library {
        attributes: vec![in alloc; attribute]?,
        keyword: at.next(),
        path: dotted(alloc, at)?,
        semicolon: at.next(),
    })
}

/// `@b() using u as v;`
pub(super) fn renamed_import(alloc: Global, at: &mut Places) -> Result<Import, AllocError> {
    let attribute = Attribute {
        at: at.next(),
        name: at.next(),
        arguments: Some(Arguments {
            left: at.next(),
            list: None,
            right: at.next(),
        }),
    };
    Ok(Import {
        attributes: vec![in alloc; attribute]?,
        keyword: at.next(),
        path: plain(alloc, at),
        alias: Some(ImportAlias {
            keyword: at.next(),
            name: at.next(),
        }),
        semicolon: at.next(),
    })
}

/// `using w;`
pub(super) fn plain_import(alloc: Global, at: &mut Places) -> Import {
    Import {
        attributes: Vec::new(alloc),
        keyword: at.next(),
        path: plain(alloc, at),
        alias: None,
        semicolon: at.next(),
    }
}
