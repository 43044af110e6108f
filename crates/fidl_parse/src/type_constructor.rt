// Types and layouts.
ghost use Rattle.std.specs.Prelude.{◌+◌, IfOk, OnOk, IsTrue, IsFalse, ◌↔◌, ◌⊎◌, ◌<◌, length, map};
ghost use Rattle.std.specs.Prelude.{codes, ◌≡◌, false};
ghost use Rattle.fidl_tree.specs.Leaf.{joined, leaf, optional, none_of, Meets, text_at};
ghost use Rattle.fidl_tree.specs.Keyword.{union_modifiers_leaves};
ghost use Rattle.fidl_tree.specs.Path.{path_from};
ghost use Rattle.fidl_tree.specs.TypeConstructor.{type_leaves, named_leaves, type_arguments_leaves};
ghost use Rattle.fidl_tree.specs.TypeConstructor.{next_type_argument_leaves, type_argument_leaves};
ghost use Rattle.fidl_tree.specs.TypeConstructor.{layout_leaves, layout_body_leaves};
ghost use Rattle.fidl_tree.specs.TypeConstructor.{struct_layout_leaves, table_layout_leaves};
ghost use Rattle.fidl_tree.specs.TypeConstructor.{union_layout_leaves, values_layout_leaves};
ghost use Rattle.fidl_tree.specs.TypeConstructor.{underlying_leaves, member_leaves};
ghost use Rattle.fidl_tree.specs.TypeConstructor.{ordinal_member_leaves, ordinal_body_leaves};
ghost use Rattle.fidl_span.specs.declared.words.WordKind.TheVariants as kind;
ghost use Rattle.fidl_parse.specs.Choices.{layout_words, IsLayoutWordAt};
ghost use Rattle.fidl_parse.specs.Reading.{Reads, ReadsBehind, IsKindAt, IsTextAt};
ghost use Rattle.fidl_parse.specs.Completeness.{Finds, row};
ghost use Rattle.fidl_parse.specs.FollowSets.{Anything, Begins, Not, extends_path, extends_name};
ghost use Rattle.fidl_parse.specs.FollowSets.{extends_type};
ghost use Rattle.fidl_parse.specs.Suffixes.{has_strictness, has_resource, block, values_block};

use crate::fault::Stop;
use crate::keyword::{without_resource, without_strictness};
use crate::parser::Parser;
use fidl_span::{Span, WordKind};
use fidl_tree::{
    Layout, LayoutBody, Member, NamedType, NextTypeArgument, OrdinalBody, OrdinalMember, Path,
    StructLayout, TableLayout, TypeArgument, TypeArguments, TypeConstructor, Underlying,
    UnionLayout, UnionModifiers, ValuesLayout,
};

impl<'w, 's> Parser<'w, 's> {
    #[cycle(types)]
    pub(crate) fn type_constructor(&self, at: &mut usize) -> Result<TypeConstructor, Stop>
        ensures reads { IfOk result (λ constructor. Reads self.now at.old at.new
            (type_leaves constructor)) }
        ensures complete { Finds self.now at.old at.new type_leaves (Not extends_type) result }
    {
        if !self.begins_layout(*at) {
            let named = Box::new(self.alloc, self.named_type(at)?)?;
            return Ok(TypeConstructor::Named(named));
        }
        let layout = Box::new(self.alloc, self.layout(at)?)?;
        let constraints = self.constraints(at)?;
        Ok(TypeConstructor::Layout {
            layout,
            constraints,
        })
    }

    #[cycle(types)]
    fn named_type(&self, at: &mut usize) -> Result<NamedType, Stop>
        ensures reads { IfOk result (λ named. Reads self.now at.old at.new (named_leaves named)) }
        ensures complete { Finds self.now at.old at.new named_leaves (Not extends_type) result }
    {
        let path = self.type_path(at)?;
        let arguments = self.type_arguments(at)?;
        let constraints = self.constraints(at)?;
        Ok(NamedType {
            path,
            arguments,
            constraints,
        })
    }

    #[cycle(types)]
    fn type_arguments(&self, at: &mut usize) -> Result<Option<TypeArguments>, Stop>
        ensures reads { IfOk result (λ arguments. Reads self.now at.old at.new
            (optional type_arguments_leaves arguments)) }
        ensures complete { Finds self.now at.old at.new (optional type_arguments_leaves)
            (Not extends_name) result }
    {
        if !self.is_next(*at, WordKind::Less) {
            return Ok(None);
        }
        let less = self.symbol(at, WordKind::Less)?;
        let first = Box::new(self.alloc, self.type_argument(at)?)?;
        let rest = self.next_type_arguments(at)?;
        let greater = self.symbol(at, WordKind::Greater)?;
        Ok(Some(TypeArguments {
            less,
            first,
            rest,
            greater,
        }))
    }

    #[cycle(types)]
    fn next_type_arguments(&self, at: &mut usize) -> Result<Vec<NextTypeArgument>, Stop>
        ensures reads { IfOk result (λ arguments. Reads self.now at.old at.new
            (joined (map next_type_argument_leaves arguments.items))) }
        ensures complete { Finds self.now at.old at.new (row next_type_argument_leaves)
            (Begins kind.Greater) result }
    {
        let mut arguments = Vec::new(self.alloc);
        while self.is_next(*at, WordKind::Comma) {
            arguments.push(self.next_type_argument(at)?)?;
        }
        Ok(arguments)
    }

    #[cycle(types)]
    fn next_type_argument(&self, at: &mut usize) -> Result<NextTypeArgument, Stop>
        ensures reads { IfOk result (λ argument. Reads self.now at.old at.new
            (next_type_argument_leaves argument)) }
        ensures complete { Finds self.now at.old at.new next_type_argument_leaves
            (Not extends_type) result }
    {
        let comma = self.symbol(at, WordKind::Comma)?;
        let argument = self.type_argument(at)?;
        Ok(NextTypeArgument { comma, argument })
    }

    #[cycle(types)]
    fn type_argument(&self, at: &mut usize) -> Result<TypeArgument, Stop>
        ensures reads { IfOk result (λ argument. Reads self.now at.old at.new
            (type_argument_leaves argument)) }
        ensures complete { Finds self.now at.old at.new type_argument_leaves
            (Not extends_type) result }
    {
        if self.is_next(*at, WordKind::Number) {
            return Ok(TypeArgument::Number(self.symbol(at, WordKind::Number)?));
        }
        Ok(TypeArgument::Type(self.type_constructor(at)?))
    }

    #[cycle(types)]
    pub(crate) fn layout(&self, at: &mut usize) -> Result<Layout, Stop>
        ensures reads { IfOk result (λ layout. Reads self.now at.old at.new
            (layout_leaves layout)) }
        ensures complete { Finds self.now at.old at.new layout_leaves Anything result }
    {
        let attributes = self.attributes(at)?;
        let body = self.layout_body(at)?;
        Ok(Layout { attributes, body })
    }

    #[cycle(types)]
    fn layout_body(&self, at: &mut usize) -> Result<LayoutBody, Stop>
        ensures reads { IfOk result (λ body. Reads self.now at.old at.new
            (layout_body_leaves body)) }
        ensures complete { Finds self.now at.old at.new layout_body_leaves Anything result }
    {
        let modifiers = self.modifiers(at)?;
        if self.is_next_word(*at, b"struct") {
            return Ok(LayoutBody::Struct(self.struct_layout(modifiers, at)?));
        }
        if self.is_next_word(*at, b"table") {
            return Ok(LayoutBody::Table(self.table_layout(modifiers, at)?));
        }
        if self.is_next_word(*at, b"union") {
            return Ok(LayoutBody::Union(self.union_layout(modifiers, at)?));
        }
        Ok(LayoutBody::Values(self.values_layout(modifiers, at)?))
    }

    #[cycle(types)]
    fn struct_layout(&self, modifiers: UnionModifiers, at: &mut usize) -> Result<StructLayout, Stop>
        ensures reads { IfOk result (λ layout. ReadsBehind self.now at.old at.new
            (union_modifiers_leaves modifiers) (struct_layout_leaves layout)) }
        ensures complete { has_strictness modifiers ≡ false → Finds self.now at.old at.new
            (block (codes "struct") member_leaves) Anything result }
    {
        let resource = without_strictness(modifiers)?;
        let keyword = self.keyword(at, b"struct")?;
        let left = self.symbol(at, WordKind::LeftBrace)?;
        let members = self.members(at)?;
        let right = self.symbol(at, WordKind::RightBrace)?;
        Ok(StructLayout {
            resource,
            keyword,
            left,
            members,
            right,
        })
    }

    #[cycle(types)]
    fn table_layout(&self, modifiers: UnionModifiers, at: &mut usize) -> Result<TableLayout, Stop>
        ensures reads { IfOk result (λ layout. ReadsBehind self.now at.old at.new
            (union_modifiers_leaves modifiers) (table_layout_leaves layout)) }
        ensures complete { has_strictness modifiers ≡ false → Finds self.now at.old at.new
            (block (codes "table") ordinal_member_leaves) Anything result }
    {
        let resource = without_strictness(modifiers)?;
        let keyword = self.keyword(at, b"table")?;
        let left = self.symbol(at, WordKind::LeftBrace)?;
        let members = self.ordinal_members(at)?;
        let right = self.symbol(at, WordKind::RightBrace)?;
        Ok(TableLayout {
            resource,
            keyword,
            left,
            members,
            right,
        })
    }

    #[cycle(types)]
    fn union_layout(&self, modifiers: UnionModifiers, at: &mut usize) -> Result<UnionLayout, Stop>
        ensures reads { IfOk result (λ layout. ReadsBehind self.now at.old at.new
            (union_modifiers_leaves modifiers) (union_layout_leaves layout)) }
        ensures complete { Finds self.now at.old at.new
            (block (codes "union") ordinal_member_leaves) Anything result }
    {
        let keyword = self.keyword(at, b"union")?;
        let left = self.symbol(at, WordKind::LeftBrace)?;
        let members = self.ordinal_members(at)?;
        let right = self.symbol(at, WordKind::RightBrace)?;
        Ok(UnionLayout {
            modifiers,
            keyword,
            left,
            members,
            right,
        })
    }

    /// Bits or an enum.
    #[cycle(types)]
    fn values_layout(&self, modifiers: UnionModifiers, at: &mut usize) -> Result<ValuesLayout, Stop>
        ensures reads { IfOk result (λ layout. ReadsBehind self.now at.old at.new
            (union_modifiers_leaves modifiers) (values_layout_leaves layout)) }
        ensures complete { has_resource modifiers ≡ false
            → Finds self.now at.old at.new values_block Anything result }
    {
        let strictness = without_resource(modifiers)?;
        let keyword = self.values_keyword(at)?;
        let underlying = self.underlying(at)?;
        let left = self.symbol(at, WordKind::LeftBrace)?;
        let members = self.value_members(at)?;
        let right = self.symbol(at, WordKind::RightBrace)?;
        Ok(ValuesLayout {
            strictness,
            keyword,
            underlying,
            left,
            members,
            right,
        })
    }

    #[cycle(types)]
    fn underlying(&self, at: &mut usize) -> Result<Option<Underlying>, Stop>
        ensures reads { IfOk result (λ underlying. Reads self.now at.old at.new
            (optional underlying_leaves underlying)) }
        ensures complete { Finds self.now at.old at.new (optional underlying_leaves)
            (Begins kind.LeftBrace) result }
    {
        if !self.is_next(*at, WordKind::Colon) {
            return Ok(None);
        }
        let colon = self.symbol(at, WordKind::Colon)?;
        let named = self.named_type(at)?;
        Ok(Some(Underlying { colon, named }))
    }

    /// The members of a struct or a service up to a closing brace.
    #[cycle(types)]
    pub(crate) fn members(&self, at: &mut usize) -> Result<Vec<Member>, Stop>
        ensures reads { IfOk result (λ members. Reads self.now at.old at.new
            (joined (map member_leaves members.items))) }
        ensures complete { Finds self.now at.old at.new (row member_leaves) (Begins kind.RightBrace)
            result }
    {
        let mut members = Vec::new(self.alloc);
        while !self.is_next(*at, WordKind::RightBrace) {
            members.push(self.member(at)?)?;
        }
        Ok(members)
    }

    #[cycle(types)]
    fn member(&self, at: &mut usize) -> Result<Member, Stop>
        ensures reads { IfOk result (λ member. Reads self.now at.old at.new
            (member_leaves member)) }
        ensures complete { Finds self.now at.old at.new member_leaves Anything result }
        ensures forward { OnOk result (at.old < at.new) }
        ensures within { OnOk result (at.old < length self.now.words.now) }
    {
        let attributes = self.attributes(at)?;
        let name = self.name(at)?;
        let constructor = self.type_constructor(at)?;
        let semicolon = self.symbol(at, WordKind::Semicolon)?;
        Ok(Member {
            attributes,
            name,
            constructor,
            semicolon,
        })
    }

    /// The members of a table or a union up to a closing brace.
    #[cycle(types)]
    fn ordinal_members(&self, at: &mut usize) -> Result<Vec<OrdinalMember>, Stop>
        ensures reads { IfOk result (λ members. Reads self.now at.old at.new
            (joined (map ordinal_member_leaves members.items))) }
        ensures complete { Finds self.now at.old at.new (row ordinal_member_leaves)
            (Begins kind.RightBrace) result }
    {
        let mut members = Vec::new(self.alloc);
        while !self.is_next(*at, WordKind::RightBrace) {
            members.push(self.ordinal_member(at)?)?;
        }
        Ok(members)
    }

    #[cycle(types)]
    fn ordinal_member(&self, at: &mut usize) -> Result<OrdinalMember, Stop>
        ensures reads { IfOk result (λ member. Reads self.now at.old at.new
            (ordinal_member_leaves member)) }
        ensures complete { Finds self.now at.old at.new ordinal_member_leaves Anything result }
        ensures forward { OnOk result (at.old < at.new) }
        ensures within { OnOk result (at.old < length self.now.words.now) }
    {
        let attributes = self.attributes(at)?;
        let ordinal = self.symbol(at, WordKind::Number)?;
        let colon = self.symbol(at, WordKind::Colon)?;
        let body = self.ordinal_body(at)?;
        let semicolon = self.symbol(at, WordKind::Semicolon)?;
        Ok(OrdinalMember {
            attributes,
            ordinal,
            colon,
            body,
            semicolon,
        })
    }

    /// Whether `reserved` stands next, before the end of the member, where it is no name.
    fn begins_reserved(&self, at: usize) -> bool
        ensures { IsTrue result ↔ IsTextAt self.now at (codes "reserved") × IsKindAt self.now
            (at + 1) kind.Semicolon }
    {
        self.is_next_word(at, b"reserved") && self.is_second(at, WordKind::Semicolon)
    }

    #[cycle(types)]
    fn ordinal_body(&self, at: &mut usize) -> Result<OrdinalBody, Stop>
        ensures reads { IfOk result (λ body. Reads self.now at.old at.new
            (ordinal_body_leaves body)) }
        ensures complete { Finds self.now at.old at.new ordinal_body_leaves (Begins kind.Semicolon)
            result }
    {
        if self.begins_reserved(*at) {
            return Ok(OrdinalBody::Reserved(self.keyword(at, b"reserved")?));
        }
        let name = self.name(at)?;
        let constructor = self.type_constructor(at)?;
        Ok(OrdinalBody::Typed { name, constructor })
    }

    /// The path of a named type.
    fn type_path(&self, at: &mut usize) -> Result<Path, Stop>
        ensures reads { IfOk result (λ path. Reads self.now at.old at.new
            (path_from (none_of layout_words) path)) }
        ensures complete { Finds self.now at.old at.new (path_from (none_of layout_words))
            (Not extends_path) result }
        ensures within { OnOk result (at.old < length self.now.words.now) }
    {
        let first = self.type_name(at)?;
        let rest = self.path_parts(at)?;
        Ok(Path { first, rest })
    }

    /// A name that begins no layout.
    fn type_name(&self, at: &mut usize) -> Result<Span, Stop>
        ensures reads { IfOk result (λ span. Reads self.now at.old at.new
            (leaf kind.Identifier span (none_of layout_words))) }
        ensures complete { Finds self.now at.old at.new (λ span. leaf kind.Identifier span
            (none_of layout_words)) Anything result }
        ensures within { OnOk result (at.old < length self.now.words.now) }
    {
        match self.words.get(*at) {
            Some(word) if word.kind == WordKind::Identifier && !self.is_layout_word(word.span) => {
                *at += 1;
                Ok(word.span)
            }
            _ => Err(Stop::Unexpected),
        }
    }

    /// Whether a layout begins with the next word. An attribute belongs to the layout behind it.
    fn begins_layout(&self, at: usize) -> bool
        ensures { IsTrue result ↔ IsKindAt self.now at kind.At ⊎ IsLayoutWordAt self.now at }
    {
        if self.is_next(at, WordKind::At) {
            return true;
        }
        match self.words.get(at) {
            Some(word) => word.kind == WordKind::Identifier && self.is_layout_word(word.span),
            None => false,
        }
    }

    /// Whether the text at a span always begins a layout.
    fn is_layout_word(&self, span: Span) -> bool
        ensures { IsFalse result ↔ Meets (none_of layout_words) (text_at self.now.src.now span) }
    {
        let text = self.text(span);
        text == b"bits".as_slice()
            || text == b"enum".as_slice()
            || text == b"struct".as_slice()
            || text == b"table".as_slice()
            || text == b"union".as_slice()
            || text == b"strict".as_slice()
            || text == b"flexible".as_slice()
            || text == b"resource".as_slice()
    }
}
