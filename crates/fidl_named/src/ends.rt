//! What meanings come to when aliases are followed: to their end, and as long as no constraints are
//! added.
ghost use Rattle.std.specs.Prelude.{◌≡◌, Some, IfSome, IsNone};
ghost use Rattle.fidl_named.specs.declared.meaning.Meaning.TheVariants as Given;
ghost use Rattle.fidl_named.specs.declared.place.DeclarationId.{DeclarationId as Id};
ghost use Rattle.fidl_named.specs.Aliases.{IsEnd, HasEnd, rows_of};
ghost use Rattle.fidl_named.specs.FullNames.{HasDeclaration};
ghost use Rattle.fidl_named.specs.Aliases.{own_end};

use crate::file_set::{FileSet, has_declaration};
use crate::meaning::Meaning;
use crate::place::DeclarationId;

/// What a meaning comes to when aliases are followed: to their end, and as long as they add no
/// constraints.
#[derive(Clone, Copy, Drop)]
pub struct AliasEnd {
    pub resolved: Meaning,
    pub passed: Meaning,
}

/// A meaning that is its own end.
pub fn own_end(meaning: Meaning) -> AliasEnd
    ensures { result ≡ own_end meaning }
{
    AliasEnd {
        resolved: meaning,
        passed: meaning,
    }
}

/// The declaration that it is, if any.
pub fn declared_id(meaning: Meaning) -> Option<DeclarationId>
    ensures some { IfSome result (λ p. meaning ≡ Given.Declared p) }
    ensures none { IsNone result → (p : Id) → meaning ≡ Given.Declared p → ⊥ }
{
    match meaning {
        Meaning::Declared(id) => Some(id),
        Meaning::Predeclared(_) | Meaning::Member { .. } | Meaning::PropertyMember { .. } => None,
    }
}

/// The ends of a meaning, by those of the declaration that it may be.
pub fn end_of(set: &FileSet<'_, '_>, ends: &[Vec<AliasEnd>], meaning: Meaning) -> AliasEnd
    requires { (p : Id) → meaning ≡ Given.Declared p → HasDeclaration set.now p
        → HasEnd set.now (rows_of ends.now) p }
    ensures { IsEnd set.now meaning result }
{
    match declared_id(meaning) {
        None => own_end(meaning),
        Some(id) => {
            if has_declaration(set, id) {
                return ends[id.file][id.index];
            }
            own_end(meaning)
        }
    }
}
