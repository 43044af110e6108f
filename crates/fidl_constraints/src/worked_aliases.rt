//! Worked facts: what the definitions say of small types, and what they don't.
ghost use Rattle.std.specs.Prelude.{◌≡◌, ◌≢◌, ℕ, List, [], ◌∷◌, Option, None, Some};
ghost use Rattle.fidl_tree.specs.Syntax.{Path, Value, Attribute, Layout, TypeUse, layout_type};
ghost use Rattle.fidl_tree.specs.Syntax.{Members, Openness, ProtocolMember, alias_body};
ghost use Rattle.fidl_tree.specs.Syntax.{protocol_body, resource_body, type_body};
ghost use Rattle.fidl_tree.specs.declared.file.File.{File};
ghost use Rattle.fidl_named.specs.declared.place.DeclarationId.{DeclarationId};
ghost use Rattle.fidl_named.specs.declared.meaning.Predeclared.TheVariants as Words;
ghost use Rattle.fidl_named.specs.declared.meaning.Meaning.TheVariants as Meanings;
ghost use Rattle.fidl_constraints.specs.Behind.{layout_head, handle_head, ends, follows, MeansType};
ghost use Rattle.fidl_constraints.specs.Behind.{body_target, IsDeclared, RefersTo, Behind};
ghost use Rattle.fidl_constraints.specs.AliasExamples.{named_with, plain_word, list_in, core_of};

/// The name of an alias refers to the alias's type in the alias's file, that of a resource
/// definition to its handle, and that of a protocol to no type.
pub fn names_refer_to_types()
    ensures of_alias { (p : DeclarationId) (t : TypeUse)
        → body_target p (alias_body t) ≡ Some (follows p.file t) }
    ensures of_layout { (p : DeclarationId) (l : Layout)
        → body_target p (type_body [] l) ≡ Some (ends p.file (layout_head l)) }
    ensures of_resource { (p : DeclarationId) (t : TypeUse) (ms : Members)
        → body_target p (resource_body t ms) ≡ Some (ends p.file (handle_head p)) }
    ensures of_protocol { (p : DeclarationId) (o : Openness) (ms : List ProtocolMember)
        → body_target p (protocol_body o ms) ≡ None }
    ensures other { (p : DeclarationId) (t : TypeUse)
        → body_target p (alias_body t) ≢ None }
{}

/// A layout refers to itself in its own file, and to no alias's type.
pub fn layouts_refer_to_themselves()
    ensures itself { (files : List File) (n : ℕ) (attributes : List Attribute) (l : Layout)
        (cs : List Value)
        → RefersTo files n (layout_type attributes l cs) (ends n (layout_head l)) }
    ensures other { (files : List File) (n k : ℕ) (attributes : List Attribute) (l : Layout)
        (cs : List Value) (t : TypeUse)
        → RefersTo files n (layout_type attributes l cs) (follows k t) → ⊥ }
{}

/// Behind an alias of `string` stands `string`, with the use's constraints before the alias's, and
/// never after them. An alias without constraints adds no list.
pub fn constraints_of_uses_come_first()
    ensures string { (files : List File) (n : ℕ) (path q : Path) (p : DeclarationId)
        (c d : Value) (cs ds : List Value) → MeansType files n path (Meanings.Declared p)
        → IsDeclared files p (follows p.file (named_with q (d ∷ ds)))
        → MeansType files p.file q (Meanings.Predeclared Words.String)
        → Behind files n (named_with path (c ∷ cs)) (core_of p.file (plain_word Words.String)
        (list_in n (c ∷ cs) ∷ list_in p.file (d ∷ ds) ∷ [])) }
    ensures bare { (files : List File) (n : ℕ) (path q : Path) (p : DeclarationId)
        (c : Value) (cs : List Value) → MeansType files n path (Meanings.Declared p)
        → IsDeclared files p (follows p.file (named_with q []))
        → MeansType files p.file q (Meanings.Predeclared Words.String)
        → Behind files n (named_with path (c ∷ cs)) (core_of p.file (plain_word Words.String)
        (list_in n (c ∷ cs) ∷ [])) }
    ensures other { (files : List File) (n : ℕ) (path q : Path) (p : DeclarationId)
        (c d : Value) (cs ds : List Value) → MeansType files n path (Meanings.Declared p)
        → IsDeclared files p (follows p.file (named_with q (d ∷ ds)))
        → MeansType files p.file q (Meanings.Predeclared Words.String) → n ≢ p.file
        → Behind files n (named_with path (c ∷ cs)) (core_of p.file (plain_word Words.String)
        (list_in p.file (d ∷ ds) ∷ list_in n (c ∷ cs) ∷ [])) → ⊥ }
{}
