// The members of protocols.
ghost use Rattle.std.specs.Prelude.{◌≡◌, ◌+◌, ◌<◌, ◌↔◌, IfOk, OnOk, IsTrue, Ok, None, codes};
ghost use Rattle.std.specs.Prelude.{length, map};
ghost use Rattle.fidl_span.specs.declared.words.WordKind.TheVariants as kind;
ghost use Rattle.fidl_tree.specs.Leaf.{joined, optional};
ghost use Rattle.fidl_tree.specs.Keyword.{strictness_leaves};
ghost use Rattle.fidl_tree.specs.Protocol.{protocol_member_leaves, protocol_member_body_leaves};
ghost use Rattle.fidl_tree.specs.Protocol.{response_leaves, error_type_leaves, payload_leaves};
ghost use Rattle.fidl_tree.specs.TypeConstructor.{type_leaves};
ghost use Rattle.fidl_parse.specs.Reading.{Reads, IsKindAt, IsTextAt};
ghost use Rattle.fidl_parse.specs.Completeness.{Finds, row};
ghost use Rattle.fidl_parse.specs.FollowSets.{Anything, Begins, BeginsMethod};

use crate::fault::Stop;
use crate::parser::Parser;
use fidl_span::WordKind;
use fidl_tree::{
    Compose, ErrorType, Event, Method, Payload, ProtocolMember, ProtocolMemberBody, Response,
    Strictness, TypeConstructor,
};

impl<'w, 's> Parser<'w, 's> {
    /// The members of a protocol up to a closing brace.
    pub(crate) fn protocol_members(&self, at: &mut usize) -> Result<Vec<ProtocolMember>, Stop>
        ensures reads { IfOk result (λ members. Reads self.now at.old at.new
            (joined (map protocol_member_leaves members.items))) }
        ensures complete { Finds self.now at.old at.new (row protocol_member_leaves)
            (Begins kind.RightBrace) result }
    {
        let mut members = Vec::new(self.alloc);
        while !self.is_next(*at, WordKind::RightBrace) {
            members.push(self.protocol_member(at)?)?;
        }
        Ok(members)
    }

    fn protocol_member(&self, at: &mut usize) -> Result<ProtocolMember, Stop>
        ensures reads { IfOk result (λ member. Reads self.now at.old at.new
            (protocol_member_leaves member)) }
        ensures complete { Finds self.now at.old at.new protocol_member_leaves Anything result }
        ensures forward { OnOk result (at.old < at.new) }
        ensures within { OnOk result (at.old < length self.now.words.now) }
    {
        let attributes = self.attributes(at)?;
        let body = self.protocol_member_body(at)?;
        let semicolon = self.symbol(at, WordKind::Semicolon)?;
        Ok(ProtocolMember {
            attributes,
            body,
            semicolon,
        })
    }

    fn protocol_member_body(&self, at: &mut usize) -> Result<ProtocolMemberBody, Stop>
        ensures reads { IfOk result (λ body. Reads self.now at.old at.new
            (protocol_member_body_leaves body)) }
        ensures complete { Finds self.now at.old at.new protocol_member_body_leaves
            (Begins kind.Semicolon) result }
    {
        if self.begins_compose(*at) {
            let keyword = self.keyword(at, b"compose")?;
            let path = self.path(at)?;
            return Ok(ProtocolMemberBody::Compose(Compose { keyword, path }));
        }
        let strictness = self.method_strictness(at)?;
        if self.is_next(*at, WordKind::Arrow) {
            let arrow = self.symbol(at, WordKind::Arrow)?;
            let name = self.name(at)?;
            let payload = self.payload(at)?;
            return Ok(ProtocolMemberBody::Event(Event {
                strictness,
                arrow,
                name,
                payload,
            }));
        }
        let name = self.name(at)?;
        let request = self.payload(at)?;
        let response = self.response(at)?;
        Ok(ProtocolMemberBody::Method(Method {
            strictness,
            name,
            request,
            response,
        }))
    }

    /// Whether `compose` stands next, which before a parenthesis is the name of a method.
    fn begins_compose(&self, at: usize) -> bool
        ensures { IsTrue result ↔ IsTextAt self.now at (codes "compose") × ¬ IsKindAt self.now
            (at + 1) kind.LeftParenthesis }
    {
        self.is_next_word(at, b"compose") && !self.is_second(at, WordKind::LeftParenthesis)
    }

    /// `strict` or `flexible`, which before a parenthesis is the name of a method.
    fn method_strictness(&self, at: &mut usize) -> Result<Option<Strictness>, Stop>
        ensures method_name { IsKindAt self.now (at.old + 1) kind.LeftParenthesis → result
            ≡ Ok None }
        ensures reads { IfOk result (λ strictness. Reads self.now at.old at.new
            (optional strictness_leaves strictness)) }
        ensures complete { Finds self.now at.old at.new (optional strictness_leaves) BeginsMethod
            result }
    {
        if self.is_second(*at, WordKind::LeftParenthesis) {
            return Ok(None);
        }
        self.strictness(at)
    }

    fn response(&self, at: &mut usize) -> Result<Option<Response>, Stop>
        ensures reads { IfOk result (λ response. Reads self.now at.old at.new
            (optional response_leaves response)) }
        ensures complete { Finds self.now at.old at.new (optional response_leaves)
            (Begins kind.Semicolon) result }
    {
        if !self.is_next(*at, WordKind::Arrow) {
            return Ok(None);
        }
        let arrow = self.symbol(at, WordKind::Arrow)?;
        let payload = self.payload(at)?;
        let error = self.error_type(at)?;
        Ok(Some(Response {
            arrow,
            payload,
            error,
        }))
    }

    fn error_type(&self, at: &mut usize) -> Result<Option<ErrorType>, Stop>
        ensures reads { IfOk result (λ error. Reads self.now at.old at.new
            (optional error_type_leaves error)) }
        ensures complete { Finds self.now at.old at.new (optional error_type_leaves)
            (Begins kind.Semicolon) result }
    {
        if !self.is_next_word(*at, b"error") {
            return Ok(None);
        }
        let keyword = self.keyword(at, b"error")?;
        let constructor = self.type_constructor(at)?;
        Ok(Some(ErrorType {
            keyword,
            constructor,
        }))
    }

    fn payload(&self, at: &mut usize) -> Result<Payload, Stop>
        ensures reads { IfOk result (λ payload. Reads self.now at.old at.new
            (payload_leaves payload)) }
        ensures complete { Finds self.now at.old at.new payload_leaves Anything result }
    {
        let left = self.symbol(at, WordKind::LeftParenthesis)?;
        let constructor = self.payload_type(at)?;
        let right = self.symbol(at, WordKind::RightParenthesis)?;
        Ok(Payload {
            left,
            constructor,
            right,
        })
    }

    /// The type up to a closing parenthesis.
    fn payload_type(&self, at: &mut usize) -> Result<Option<TypeConstructor>, Stop>
        ensures reads { IfOk result (λ constructor. Reads self.now at.old at.new
            (optional type_leaves constructor)) }
        ensures complete { Finds self.now at.old at.new (optional type_leaves)
            (Begins kind.RightParenthesis) result }
    {
        if self.is_next(*at, WordKind::RightParenthesis) {
            return Ok(None);
        }
        Ok(Some(self.type_constructor(at)?))
    }
}
