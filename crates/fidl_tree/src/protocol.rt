ghost use Rattle.fidl_tree.specs.Protocol.{protocol_member_leaves, protocol_member_body_leaves};
ghost use Rattle.fidl_tree.specs.Protocol.{compose_leaves, method_leaves, response_leaves};
ghost use Rattle.fidl_tree.specs.Protocol.{error_type_leaves, event_leaves, payload_leaves};

use crate::attribute::Attribute;
use crate::keyword::Strictness;
use crate::path::Path;
use crate::production::{Production, push_all, push_optional, push_word};
use crate::type_constructor::TypeConstructor;
use fidl_span::{Span, Word, WordKind};
use std::alloc::AllocError;

/// A member of a protocol.
#[derive(Drop)]
pub struct ProtocolMember {
    pub attributes: Vec<Attribute>,
    pub body: ProtocolMemberBody,
    pub semicolon: Span,
}

/// What kind of member it is.
#[derive(Drop)]
pub enum ProtocolMemberBody {
    Compose(Compose),
    Method(Method),
    Event(Event),
}

/// `compose` and the name of another protocol.
#[derive(Drop)]
pub struct Compose {
    pub keyword: Span,
    pub path: Path,
}

/// A method: one-way without a response, two-way with one.
#[derive(Drop)]
pub struct Method {
    pub strictness: Option<Strictness>,
    pub name: Span,
    pub request: Payload,
    pub response: Option<Response>,
}

/// The response of a two-way method.
#[derive(Drop)]
pub struct Response {
    pub arrow: Span,
    pub payload: Payload,
    pub error: Option<ErrorType>,
}

/// `error` and the type behind it.
#[derive(Drop)]
pub struct ErrorType {
    pub keyword: Span,
    pub constructor: TypeConstructor,
}

/// An event, which begins with an arrow.
#[derive(Drop)]
pub struct Event {
    pub strictness: Option<Strictness>,
    pub arrow: Span,
    pub name: Span,
    pub payload: Payload,
}

/// A type in parentheses, or nothing in them.
#[derive(Drop)]
pub struct Payload {
    pub left: Span,
    pub constructor: Option<TypeConstructor>,
    pub right: Span,
}

impl Production for ProtocolMember {
    ghost leaves = { protocol_member_leaves };

    fn push_words(&self, out: &mut Vec<Word>) -> Result<(), AllocError> {
        push_all(out, &self.attributes)?;
        self.body.push_words(out)?;
        push_word(out, WordKind::Semicolon, self.semicolon)
    }
}

impl Production for ProtocolMemberBody {
    ghost leaves = { protocol_member_body_leaves };

    fn push_words(&self, out: &mut Vec<Word>) -> Result<(), AllocError> {
        match self {
            ProtocolMemberBody::Compose(compose) => compose.push_words(out),
            ProtocolMemberBody::Method(method) => method.push_words(out),
            ProtocolMemberBody::Event(event) => event.push_words(out),
        }
    }
}

impl Production for Compose {
    ghost leaves = { compose_leaves };

    fn push_words(&self, out: &mut Vec<Word>) -> Result<(), AllocError> {
        push_word(out, WordKind::Identifier, self.keyword)?;
        self.path.push_words(out)
    }
}

impl Production for Method {
    ghost leaves = { method_leaves };

    fn push_words(&self, out: &mut Vec<Word>) -> Result<(), AllocError> {
        push_optional(out, &self.strictness)?;
        push_word(out, WordKind::Identifier, self.name)?;
        self.request.push_words(out)?;
        push_optional(out, &self.response)
    }
}

impl Production for Response {
    ghost leaves = { response_leaves };

    fn push_words(&self, out: &mut Vec<Word>) -> Result<(), AllocError> {
        push_word(out, WordKind::Arrow, self.arrow)?;
        self.payload.push_words(out)?;
        push_optional(out, &self.error)
    }
}

impl Production for ErrorType {
    ghost leaves = { error_type_leaves };

    fn push_words(&self, out: &mut Vec<Word>) -> Result<(), AllocError> {
        push_word(out, WordKind::Identifier, self.keyword)?;
        self.constructor.push_words(out)
    }
}

impl Production for Event {
    ghost leaves = { event_leaves };

    fn push_words(&self, out: &mut Vec<Word>) -> Result<(), AllocError> {
        push_optional(out, &self.strictness)?;
        push_word(out, WordKind::Arrow, self.arrow)?;
        push_word(out, WordKind::Identifier, self.name)?;
        self.payload.push_words(out)
    }
}

impl Production for Payload {
    ghost leaves = { payload_leaves };

    fn push_words(&self, out: &mut Vec<Word>) -> Result<(), AllocError> {
        push_word(out, WordKind::LeftParenthesis, self.left)?;
        push_optional(out, &self.constructor)?;
        push_word(out, WordKind::RightParenthesis, self.right)
    }
}
