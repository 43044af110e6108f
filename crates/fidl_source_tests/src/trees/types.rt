// Constants and aliases, whose types have arguments and constraints.
use super::parts::{Places, boxed, dotted, named, plain, single};
use fidl_tree::*;
use std::alloc::{AllocError, Global};

/// `vector<t, 3>`
fn vector(alloc: Global, at: &mut Places) -> Result<(Path, TypeArguments), AllocError> {
    Ok((
        plain(alloc, at),
        TypeArguments {
            less: at.next(),
            first: Box::new(alloc, TypeArgument::Type(named(alloc, at)?))?,
            rest: vec![in alloc;
                NextTypeArgument {
                    comma: at.next(),
                    argument: TypeArgument::Number(at.next()),
                },
            ]?,
            greater: at.next(),
        },
    ))
}

/// `:<1, -2 | (p.q)>`
fn constraints(alloc: Global, at: &mut Places) -> Result<Constraints, AllocError> {
    Ok(Constraints::List {
        colon: at.next(),
        less: at.next(),
        first: Box::new(
            alloc,
            single(
                alloc,
                Operand::Number {
                    minus: None,
                    number: at.next(),
                },
            ),
        )?,
        rest: vec![in alloc;
            NextConstraint {
                comma: at.next(),
                value: Value {
                    first: Operand::Number {
                        minus: Some(at.next()),
                        number: at.next()
                    },
                    rest: vec![in alloc;
                        OrOperand {
                            bar: at.next(),
                            operand: Operand::Group {
                                left: at.next(),
                                value: Box::new(
                                    alloc,
                                    single(alloc, Operand::Path(dotted(alloc, at)?))
                                )?,
                                right: at.next(),
                            },
                        }
                    ]?,
                },
            },
        ]?,
        greater: at.next(),
    })
}

/// `const C vector<t, 3>:<1, -2 | (p.q)> = true;`
pub(super) fn constant(alloc: Global, at: &mut Places) -> Result<Declaration, AllocError> {
    let keyword = at.next();
    let name = at.next();
    let (path, arguments) = vector(alloc, at)?;
    Ok(Declaration {
        attributes: Vec::new(alloc),
        body: DeclarationBody::Const(ConstDeclaration {
            keyword,
            name,
            constructor: boxed(
                alloc,
                NamedType {
                    path,
                    arguments: Some(arguments),
                    constraints: Some(constraints(alloc, at)?),
                },
            )?,
            equals: at.next(),
            value: single(alloc, Operand::True(at.next())),
        }),
        semicolon: at.next(),
    })
}

/// `alias A = t:false;`
pub(super) fn alias(alloc: Global, at: &mut Places) -> Result<Declaration, AllocError> {
    Ok(Declaration {
        attributes: Vec::new(alloc),
        body: DeclarationBody::Alias(AliasDeclaration {
            keyword: at.next(),
            name: at.next(),
            equals: at.next(),
            constructor: boxed(
                alloc,
                NamedType {
                    path: plain(alloc, at),
                    arguments: None,
                    constraints: Some(Constraints::Single {
                        colon: at.next(),
                        value: Box::new(alloc, single(alloc, Operand::False(at.next())))?,
                    }),
                },
            )?,
        }),
        semicolon: at.next(),
    })
}
