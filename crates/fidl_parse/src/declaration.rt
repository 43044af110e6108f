// Declarations.
ghost use Rattle.std.specs.Prelude.{IfOk, OnOk, ◌<◌, length, map};
ghost use Rattle.fidl_tree.specs.Leaf.{joined};
ghost use Rattle.fidl_tree.specs.Attribute.{attributes_leaves};
ghost use Rattle.fidl_tree.specs.Declaration.{declaration_leaves, declaration_body_leaves};
ghost use Rattle.fidl_tree.specs.Declaration.{const_leaves, alias_leaves, type_declaration_leaves};
ghost use Rattle.fidl_tree.specs.Declaration.{protocol_leaves, service_leaves};
ghost use Rattle.fidl_tree.specs.Declaration.{resource_definition_leaves, properties_leaves};
ghost use Rattle.fidl_tree.specs.Declaration.{property_leaves};
ghost use Rattle.fidl_parse.specs.Reading.{Reads, ReadsBehind};
ghost use Rattle.fidl_parse.specs.Completeness.{Finds, row};
ghost use Rattle.fidl_parse.specs.FollowSets.{Anything, Begins};
ghost use Rattle.fidl_parse.specs.Suffixes.{behind_attributes};
ghost use Rattle.fidl_span.specs.declared.words.WordKind.TheVariants as kind;

use crate::fault::Stop;
use crate::parser::Parser;
use fidl_span::WordKind;
use fidl_tree::{
    AliasDeclaration, Attribute, ConstDeclaration, Declaration, DeclarationBody, Properties,
    Property, ProtocolDeclaration, ResourceDefinition, ServiceDeclaration, TypeDeclaration,
};

impl<'w, 's> Parser<'w, 's> {
    /// The declaration behind these attributes.
    pub(crate) fn declaration(
        &self,
        attributes: Vec<Attribute>,
        at: &mut usize,
    ) -> Result<Declaration, Stop>
        ensures reads { IfOk result (λ declaration. ReadsBehind self.now at.old at.new
            (attributes_leaves attributes.items) (declaration_leaves declaration)) }
        ensures complete { Finds self.now at.old at.new behind_attributes Anything result }
        ensures forward { OnOk result (at.old < at.new) }
    {
        let body = self.declaration_body(at)?;
        let semicolon = self.symbol(at, WordKind::Semicolon)?;
        Ok(Declaration {
            attributes,
            body,
            semicolon,
        })
    }

    fn declaration_body(&self, at: &mut usize) -> Result<DeclarationBody, Stop>
        ensures reads { IfOk result (λ body. Reads self.now at.old at.new
            (declaration_body_leaves body)) }
        ensures complete { Finds self.now at.old at.new declaration_body_leaves
            (Begins kind.Semicolon) result }
    {
        if self.is_next_word(*at, b"const") {
            return Ok(DeclarationBody::Const(self.constant(at)?));
        }
        if self.is_next_word(*at, b"alias") {
            return Ok(DeclarationBody::Alias(self.alias(at)?));
        }
        if self.is_next_word(*at, b"type") {
            return Ok(DeclarationBody::Type(self.type_declaration(at)?));
        }
        if self.is_next_word(*at, b"service") {
            return Ok(DeclarationBody::Service(self.service(at)?));
        }
        if self.is_next_word(*at, b"resource_definition") {
            return Ok(DeclarationBody::Resource(self.resource_definition(at)?));
        }
        Ok(DeclarationBody::Protocol(self.protocol(at)?))
    }

    fn constant(&self, at: &mut usize) -> Result<ConstDeclaration, Stop>
        ensures reads { IfOk result (λ declaration. Reads self.now at.old at.new
            (const_leaves declaration)) }
        ensures complete { Finds self.now at.old at.new const_leaves (Begins kind.Semicolon)
            result }
    {
        let keyword = self.keyword(at, b"const")?;
        let name = self.name(at)?;
        let constructor = self.type_constructor(at)?;
        let equals = self.symbol(at, WordKind::Equals)?;
        let value = self.value(at)?;
        Ok(ConstDeclaration {
            keyword,
            name,
            constructor,
            equals,
            value,
        })
    }

    fn alias(&self, at: &mut usize) -> Result<AliasDeclaration, Stop>
        ensures reads { IfOk result (λ declaration. Reads self.now at.old at.new
            (alias_leaves declaration)) }
        ensures complete { Finds self.now at.old at.new alias_leaves (Begins kind.Semicolon)
            result }
    {
        let keyword = self.keyword(at, b"alias")?;
        let name = self.name(at)?;
        let equals = self.symbol(at, WordKind::Equals)?;
        let constructor = self.type_constructor(at)?;
        Ok(AliasDeclaration {
            keyword,
            name,
            equals,
            constructor,
        })
    }

    fn type_declaration(&self, at: &mut usize) -> Result<TypeDeclaration, Stop>
        ensures reads { IfOk result (λ declaration. Reads self.now at.old at.new
            (type_declaration_leaves declaration)) }
        ensures complete { Finds self.now at.old at.new type_declaration_leaves Anything result }
    {
        let keyword = self.keyword(at, b"type")?;
        let name = self.name(at)?;
        let equals = self.symbol(at, WordKind::Equals)?;
        let layout = self.layout(at)?;
        Ok(TypeDeclaration {
            keyword,
            name,
            equals,
            layout,
        })
    }

    fn protocol(&self, at: &mut usize) -> Result<ProtocolDeclaration, Stop>
        ensures reads { IfOk result (λ declaration. Reads self.now at.old at.new
            (protocol_leaves declaration)) }
        ensures complete { Finds self.now at.old at.new protocol_leaves Anything result }
    {
        let openness = self.openness(at)?;
        let keyword = self.keyword(at, b"protocol")?;
        let name = self.name(at)?;
        let left = self.symbol(at, WordKind::LeftBrace)?;
        let members = self.protocol_members(at)?;
        let right = self.symbol(at, WordKind::RightBrace)?;
        Ok(ProtocolDeclaration {
            openness,
            keyword,
            name,
            left,
            members,
            right,
        })
    }

    fn service(&self, at: &mut usize) -> Result<ServiceDeclaration, Stop>
        ensures reads { IfOk result (λ declaration. Reads self.now at.old at.new
            (service_leaves declaration)) }
        ensures complete { Finds self.now at.old at.new service_leaves Anything result }
    {
        let keyword = self.keyword(at, b"service")?;
        let name = self.name(at)?;
        let left = self.symbol(at, WordKind::LeftBrace)?;
        let members = self.members(at)?;
        let right = self.symbol(at, WordKind::RightBrace)?;
        Ok(ServiceDeclaration {
            keyword,
            name,
            left,
            members,
            right,
        })
    }

    fn resource_definition(&self, at: &mut usize) -> Result<ResourceDefinition, Stop>
        ensures reads { IfOk result (λ definition. Reads self.now at.old at.new
            (resource_definition_leaves definition)) }
        ensures complete { Finds self.now at.old at.new resource_definition_leaves Anything result }
    {
        let keyword = self.keyword(at, b"resource_definition")?;
        let name = self.name(at)?;
        let colon = self.symbol(at, WordKind::Colon)?;
        let constructor = self.type_constructor(at)?;
        let left = self.symbol(at, WordKind::LeftBrace)?;
        let properties = self.properties(at)?;
        let right = self.symbol(at, WordKind::RightBrace)?;
        Ok(ResourceDefinition {
            keyword,
            name,
            colon,
            constructor,
            left,
            properties,
            right,
        })
    }

    fn properties(&self, at: &mut usize) -> Result<Properties, Stop>
        ensures reads { IfOk result (λ properties. Reads self.now at.old at.new
            (properties_leaves properties)) }
        ensures complete { Finds self.now at.old at.new properties_leaves Anything result }
    {
        let keyword = self.keyword(at, b"properties")?;
        let left = self.symbol(at, WordKind::LeftBrace)?;
        let members = self.property_list(at)?;
        let right = self.symbol(at, WordKind::RightBrace)?;
        let semicolon = self.symbol(at, WordKind::Semicolon)?;
        Ok(Properties {
            keyword,
            left,
            members,
            right,
            semicolon,
        })
    }

    /// The properties up to a closing brace.
    fn property_list(&self, at: &mut usize) -> Result<Vec<Property>, Stop>
        ensures reads { IfOk result (λ members. Reads self.now at.old at.new
            (joined (map property_leaves members.items))) }
        ensures complete { Finds self.now at.old at.new (row property_leaves)
            (Begins kind.RightBrace) result }
    {
        let mut members = Vec::new(self.alloc);
        while !self.is_next(*at, WordKind::RightBrace) {
            members.push(self.property(at)?)?;
        }
        Ok(members)
    }

    fn property(&self, at: &mut usize) -> Result<Property, Stop>
        ensures reads { IfOk result (λ property. Reads self.now at.old at.new
            (property_leaves property)) }
        ensures complete { Finds self.now at.old at.new property_leaves Anything result }
        ensures forward { OnOk result (at.old < at.new) }
        ensures within { OnOk result (at.old < length self.now.words.now) }
    {
        let name = self.name(at)?;
        let constructor = self.type_constructor(at)?;
        let semicolon = self.symbol(at, WordKind::Semicolon)?;
        Ok(Property {
            name,
            constructor,
            semicolon,
        })
    }
}
