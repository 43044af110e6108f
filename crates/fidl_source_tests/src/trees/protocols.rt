// Protocols, services and resource definitions.
use super::parts::{Places, dotted, marked, named};
use fidl_tree::*;
use std::alloc::{AllocError, Global};

fn payload(alloc: Global, at: &mut Places) -> Result<Payload, AllocError> {
    Ok(Payload {
        left: at.next(),
        constructor: Some(named(alloc, at)?),
        right: at.next(),
    })
}

fn empty_payload(at: &mut Places) -> Payload {
    Payload {
        left: at.next(),
        constructor: None,
        right: at.next(),
    }
}

/// `@h compose q.r;`
fn compose(alloc: Global, at: &mut Places) -> Result<ProtocolMember, AllocError> {
    Ok(ProtocolMember {
        attributes: marked(alloc, at)?,
        body: ProtocolMemberBody::Compose(Compose {
            keyword: at.next(),
            path: dotted(alloc, at)?,
        }),
        semicolon: at.next(),
    })
}

/// `strict M(t) -> () error t;`
fn two_way(alloc: Global, at: &mut Places) -> Result<ProtocolMember, AllocError> {
    Ok(ProtocolMember {
        attributes: Vec::new(alloc),
        body: ProtocolMemberBody::Method(Method {
            strictness: Some(Strictness::Strict(at.next())),
            name: at.next(),
            request: payload(alloc, at)?,
            response: Some(Response {
                arrow: at.next(),
                payload: empty_payload(at),
                error: Some(ErrorType {
                    keyword: at.next(),
                    constructor: named(alloc, at)?,
                }),
            }),
        }),
        semicolon: at.next(),
    })
}

/// `F();`
fn one_way(alloc: Global, at: &mut Places) -> ProtocolMember {
    ProtocolMember {
        attributes: Vec::new(alloc),
        body: ProtocolMemberBody::Method(Method {
            strictness: None,
            name: at.next(),
            request: empty_payload(at),
            response: None,
        }),
        semicolon: at.next(),
    }
}

/// `flexible -> E(t);`
fn event(alloc: Global, at: &mut Places) -> Result<ProtocolMember, AllocError> {
    Ok(ProtocolMember {
        attributes: Vec::new(alloc),
        body: ProtocolMemberBody::Event(Event {
            strictness: Some(Strictness::Flexible(at.next())),
            arrow: at.next(),
            name: at.next(),
            payload: payload(alloc, at)?,
        }),
        semicolon: at.next(),
    })
}

/// `@g ajar protocol P { @h compose q.r; strict M(t) -> () error t; F(); flexible -> E(t); };`
pub(super) fn protocol(alloc: Global, at: &mut Places) -> Result<Declaration, AllocError> {
    Ok(Declaration {
        attributes: marked(alloc, at)?,
        body: DeclarationBody::Protocol(ProtocolDeclaration {
            openness: Some(Openness::Ajar(at.next())),
            keyword: at.next(),
            name: at.next(),
            left: at.next(),
            members: vec![in alloc;
                compose(alloc, at)?,
                two_way(alloc, at)?,
                one_way(alloc, at),
                event(alloc, at)?,
            ]?,
            right: at.next(),
        }),
        semicolon: at.next(),
    })
}

/// `service W { @i c t; };`
pub(super) fn service(alloc: Global, at: &mut Places) -> Result<Declaration, AllocError> {
    Ok(Declaration {
        attributes: Vec::new(alloc),
        body: DeclarationBody::Service(ServiceDeclaration {
            keyword: at.next(),
            name: at.next(),
            left: at.next(),
            members: vec![in alloc;
                Member {
                    attributes: marked(alloc, at)?,
                    name: at.next(),
                    constructor: named(alloc, at)?,
                    semicolon: at.next(),
                },
            ]?,
            right: at.next(),
        }),
        semicolon: at.next(),
    })
}

/// `resource_definition R : t { properties { s t; }; };`
pub(super) fn resource_definition(
    alloc: Global,
    at: &mut Places,
) -> Result<Declaration, AllocError> {
    Ok(Declaration {
        attributes: Vec::new(alloc),
        body: DeclarationBody::Resource(ResourceDefinition {
            keyword: at.next(),
            name: at.next(),
            colon: at.next(),
            constructor: named(alloc, at)?,
            left: at.next(),
            properties: Properties {
                keyword: at.next(),
                left: at.next(),
                members: vec![in alloc;
                    Property {
                        name: at.next(),
                        constructor: named(alloc, at)?,
                        semicolon: at.next(),
                    },
                ]?,
                right: at.next(),
                semicolon: at.next(),
            },
            right: at.next(),
        }),
        semicolon: at.next(),
    })
}
