// The words of the grammar that there is a choice of.
ghost use Rattle.std.specs.Prelude.{◌≡◌, IfOk, IsOk, false, [], ◌∷◌, codes};
ghost use Rattle.fidl_tree.specs.Leaf.{optional};
ghost use Rattle.fidl_tree.specs.Keyword.{strictness_leaves, resource_leaves, openness_leaves};
ghost use Rattle.fidl_tree.specs.Keyword.{values_keyword_leaves, union_modifiers_leaves};
ghost use Rattle.fidl_parse.specs.Reading.{Reads, IsTextAt};
ghost use Rattle.fidl_parse.specs.Completeness.{Finds, Skips};
ghost use Rattle.fidl_parse.specs.FollowSets.{Anything, NotWord, modifier_words, strictness_words};
ghost use Rattle.fidl_parse.specs.Suffixes.{has_strictness, has_resource, Lacks};

use crate::fault::Stop;
use crate::parser::Parser;
use fidl_tree::{Openness, Resource, Strictness, UnionModifiers, ValuesKeyword};

impl<'w, 's> Parser<'w, 's> {
    pub(crate) fn strictness(&self, at: &mut usize) -> Result<Option<Strictness>, Stop>
        ensures reads { IfOk result (λ strictness. Reads self.now at.old at.new
            (optional strictness_leaves strictness)) }
        ensures present { Finds self.now at.old at.new strictness_leaves Anything result }
        ensures absent { Skips self.now at.old at.new (NotWord strictness_words) result }
    {
        if self.is_next_word(*at, b"strict") {
            return Ok(Some(Strictness::Strict(self.keyword(at, b"strict")?)));
        }
        if self.is_next_word(*at, b"flexible") {
            return Ok(Some(Strictness::Flexible(self.keyword(at, b"flexible")?)));
        }
        Ok(None)
    }

    fn resource(&self, at: &mut usize) -> Result<Option<Resource>, Stop>
        ensures reads { IfOk result (λ resource. Reads self.now at.old at.new
            (optional resource_leaves resource)) }
        ensures present { Finds self.now at.old at.new resource_leaves Anything result }
        ensures absent { Skips self.now at.old at.new (NotWord (codes "resource" ∷ [])) result }
    {
        if !self.is_next_word(*at, b"resource") {
            return Ok(None);
        }
        let keyword = self.keyword(at, b"resource")?;
        Ok(Some(Resource { keyword }))
    }

    pub(crate) fn openness(&self, at: &mut usize) -> Result<Option<Openness>, Stop>
        ensures reads { IfOk result (λ openness. Reads self.now at.old at.new
            (optional openness_leaves openness)) }
        ensures complete { Finds self.now at.old at.new (optional openness_leaves)
            (NotWord (codes "open" ∷ codes "ajar" ∷ codes "closed" ∷ [])) result }
    {
        if self.is_next_word(*at, b"open") {
            return Ok(Some(Openness::Open(self.keyword(at, b"open")?)));
        }
        if self.is_next_word(*at, b"ajar") {
            return Ok(Some(Openness::Ajar(self.keyword(at, b"ajar")?)));
        }
        if self.is_next_word(*at, b"closed") {
            return Ok(Some(Openness::Closed(self.keyword(at, b"closed")?)));
        }
        Ok(None)
    }

    pub(crate) fn values_keyword(&self, at: &mut usize) -> Result<ValuesKeyword, Stop>
        ensures reads { IfOk result (λ keyword. Reads self.now at.old at.new
            (values_keyword_leaves keyword)) }
        ensures complete { Finds self.now at.old at.new values_keyword_leaves Anything result }
    {
        if self.is_next_word(*at, b"bits") {
            return Ok(ValuesKeyword::Bits(self.keyword(at, b"bits")?));
        }
        Ok(ValuesKeyword::Enum(self.keyword(at, b"enum")?))
    }

    /// What stands before the keyword of a layout.
    pub(crate) fn modifiers(&self, at: &mut usize) -> Result<UnionModifiers, Stop>
        ensures reads { IfOk result (λ modifiers. Reads self.now at.old at.new
            (union_modifiers_leaves modifiers)) }
        ensures complete { Finds self.now at.old at.new union_modifiers_leaves
            (NotWord modifier_words) result }
        ensures strictness { Lacks has_strictness self.now at.old result }
        ensures resource { Lacks has_resource self.now at.old result }
    {
        if self.is_next_word(*at, b"resource") {
            return self.resource_first(at);
        }
        let strictness = self.strictness(at)?;
        let resource = self.resource(at)?;
        Ok(UnionModifiers::StrictnessFirst {
            strictness,
            resource,
        })
    }

    fn resource_first(&self, at: &mut usize) -> Result<UnionModifiers, Stop>
        ensures reads { IfOk result (λ modifiers. Reads self.now at.old at.new
            (union_modifiers_leaves modifiers)) }
        ensures complete { IsTextAt self.now at.old (codes "resource")
            → Finds self.now at.old at.new union_modifiers_leaves (NotWord modifier_words) result }
        ensures strictness { IsTextAt self.now at.old (codes "resource")
            → Lacks has_strictness self.now at.old result }
    {
        let keyword = self.keyword(at, b"resource")?;
        let resource = Resource { keyword };
        match self.strictness(at)? {
            Some(strictness) => Ok(UnionModifiers::ResourceFirst {
                resource,
                strictness,
            }),
            None => Ok(UnionModifiers::StrictnessFirst {
                strictness: None,
                resource: Some(resource),
            }),
        }
    }
}

/// What may stand before `struct` and `table`.
pub(crate) fn without_strictness(modifiers: UnionModifiers) -> Result<Option<Resource>, Stop>
    ensures leaves { IfOk result (λ resource. union_modifiers_leaves modifiers
        ≡ optional resource_leaves resource) }
    ensures complete { has_strictness modifiers ≡ false → IsOk result }
{
    match modifiers {
        UnionModifiers::StrictnessFirst {
            strictness: None,
            resource,
        } => Ok(resource),
        _ => Err(Stop::Unexpected),
    }
}

/// What may stand before `bits` and `enum`.
pub(crate) fn without_resource(modifiers: UnionModifiers) -> Result<Option<Strictness>, Stop>
    ensures leaves { IfOk result (λ strictness. union_modifiers_leaves modifiers
        ≡ optional strictness_leaves strictness) }
    ensures complete { has_resource modifiers ≡ false → IsOk result }
{
    match modifiers {
        UnionModifiers::StrictnessFirst {
            strictness,
            resource: None,
        } => Ok(strictness),
        _ => Err(Stop::Unexpected),
    }
}
