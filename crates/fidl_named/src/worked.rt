//! Worked facts: what the definitions give for small types.
ghost use Rattle.std.specs.Prelude.{◌≡◌, ◌≢◌, ℕ, List, [], ◌∷◌, None, Some, false};
ghost use Rattle.fidl_span.specs.declared.words.Span.{Span};
ghost use Rattle.fidl_tree.specs.Leaf.{text_at};
ghost use Rattle.fidl_tree.specs.Syntax.{Path, Value, named_type, layout_type};
ghost use Rattle.fidl_tree.specs.Syntax.{bitwise_or, no_operands, next_operand, path_operand};
ghost use Rattle.fidl_tree.specs.Syntax.{group_operand};
ghost use Rattle.fidl_tree.specs.Syntax.{number_argument};
ghost use Rattle.fidl_tree.specs.Syntax.{no_arguments, next_argument, type_argument};
ghost use Rattle.fidl_tree.specs.Syntax.{struct_layout, no_members, next_member};
ghost use Rattle.fidl_tree.specs.Syntax.{named_member};
ghost use Rattle.fidl_tree.specs.declared.file.File.{File};
ghost use Rattle.fidl_tree.specs.declared.declaration.Declaration.{Declaration};
ghost use Rattle.fidl_tree.specs.declared.declaration.DeclarationBody.TheVariants as Body;
ghost use Rattle.fidl_tree.specs.declared.declaration.Property.{Property};
ghost use Rattle.fidl_tree.specs.declared.declaration.ResourceDefinition.{ResourceDefinition};
ghost use Rattle.fidl_tree.specs.declared.declaration.ServiceDeclaration.{ServiceDeclaration};
ghost use Rattle.fidl_tree.specs.declared.type_constructor.Layout.{Layout as TypeLayout};
ghost use Rattle.fidl_tree.specs.declared.type_constructor.Layout.{out-Layout};
ghost use Rattle.fidl_tree.specs.declared.value_member.ValueMember.{ValueMember};
ghost use Rattle.fidl_named.specs.declared.member_numbers.MemberNumbers.{MemberNumbers as Numbers};
ghost use Rattle.fidl_named.specs.Constraints.{type_layout};
ghost use Rattle.fidl_named.specs.Meanings.{layout_members};
ghost use Rattle.fidl_named.specs.MemberNumbers.{AreNumbers, AreNumbersOf, AreNumbersIn, Match};
ghost use Rattle.fidl_named.specs.MemberNumbers.{own_properties, written_names};
ghost use Rattle.fidl_named.specs.Spots.{type_spots};
ghost use Rattle.fidl_named.specs.Places.{value_paths, places_of, a_type, a_layout, a_number};

/// `a<b, 3>:v` has the places of `a` with its constraints, of `b`, and of the number, which alone
/// is the second argument of `a`.
pub fn places_in_arguments()
    ensures seen { (a b : Path) (n : Span) (v : Value) → places_of (type_spots None (named_type a
        (next_argument (type_argument (named_type b no_arguments []))
        (next_argument (number_argument n) no_arguments)) (v ∷ [])))
        ≡ a_type None a (v ∷ []) ∷ a_type None b [] ∷ a_number (Some a) n ∷ [] }
    ensures other { (a b : Path) (n : Span) (v : Value) → places_of (type_spots None (named_type a
        (next_argument (type_argument (named_type b no_arguments []))
        (next_argument (number_argument n) no_arguments)) (v ∷ [])))
        ≢ a_type None a (v ∷ []) ∷ a_type None b [] ∷ a_number None n ∷ [] }
{}

/// `struct {x t;}:v` has the place of its member's type, and then that of its constraints.
pub fn places_of_members_first()
    ensures seen { (x k : Span) (t : Path) (v : Value) → places_of (type_spots None (layout_type []
        (struct_layout false k (next_member (named_member [] x (named_type t no_arguments []))
        no_members)) (v ∷ [])))
        ≡ a_type None t [] ∷ a_layout (v ∷ []) ∷ [] }
    ensures other { (x k : Span) (t : Path) (v : Value) → places_of (type_spots None (layout_type []
        (struct_layout false k (next_member (named_member [] x (named_type t no_arguments []))
        no_members)) (v ∷ [])))
        ≢ a_layout (v ∷ []) ∷ a_type None t [] ∷ [] }
{}

/// `p | (q)` has the paths `p` and `q`, in this order.
pub fn paths_in_order()
    ensures seen { (p q : Path) (l r : Span) → value_paths (bitwise_or (path_operand p)
        (next_operand (group_operand l (bitwise_or (path_operand q) no_operands) r) no_operands))
        ≡ p ∷ q ∷ [] }
    ensures other { (p q : Path) (l r : Span) → value_paths (bitwise_or (path_operand p)
        (next_operand (group_operand l (bitwise_or (path_operand q) no_operands) r) no_operands))
        ≢ p ∷ [] }
{}

/// Of two names that are the same, entries give the number of the first, and not of the second.
pub fn numbers_of_firsts()
    ensures seen { (x : List ℕ) → AreNumbers (x ∷ x ∷ []) ((x, 0) ∷ []) }
    ensures other { (x : List ℕ) → AreNumbers (x ∷ x ∷ []) ((x, 1) ∷ []) → ⊥ }
{}

/// Lists match that have the same items; a list matches no shorter one.
pub fn lists_that_match()
    ensures seen { (x y : ℕ) → Match (λ (a b : ℕ). a ≡ b) (x ∷ y ∷ []) (x ∷ y ∷ []) }
    ensures other { (x y : ℕ) → Match (λ (a b : ℕ). a ≡ b) (x ∷ y ∷ []) (x ∷ []) → ⊥ }
{}

/// A resource definition has its properties, and a service has none.
pub fn properties_of_declarations()
    ensures seen { (d : ResourceDefinition)
        → own_properties (Body.Resource d) ≡ d.properties.members.items }
    ensures none { (d : ServiceDeclaration) → own_properties (Body.Service d) ≡ [] }
    ensures other { (d : ResourceDefinition) (p : Property)
        → d.properties.members.items ≡ p ∷ [] → own_properties (Body.Resource d) ≢ [] }
{}

/// A property that is written as bits or an enum has the names of their members, and one of a named
/// type has none.
pub fn names_of_written_members()
    ensures seen { (f : File) (p : Property) (l : TypeLayout) (m : ValueMember)
        → type_layout p.constructor ≡ Some l → layout_members (out-Layout l).body ≡ m ∷ []
        → written_names f p ≡ text_at f.src.now m.name ∷ [] }
    ensures named { (f : File) (p : Property) → type_layout p.constructor ≡ None
        → written_names f p ≡ [] }
    ensures other { (f : File) (p : Property) (l : TypeLayout) (m : ValueMember)
        → type_layout p.constructor ≡ Some l → layout_members (out-Layout l).body ≡ m ∷ []
        → written_names f p ≢ [] }
{}

/// A service has no numbers. A property without a map of the members that it is written with is
/// refused.
pub fn numbers_of_declarations()
    ensures seen { (f : File) (d : Declaration) (s : ServiceDeclaration) (n : Numbers)
        → d.body ≡ Body.Service s → n.members.entries ≡ [] → n.properties.entries ≡ []
        → n.written.items ≡ [] → AreNumbersOf f d n }
    ensures other { (f : File) (d : Declaration) (r : ResourceDefinition) (n : Numbers)
        (p : Property) → d.body ≡ Body.Resource r → r.properties.members.items ≡ p ∷ []
        → n.written.items ≡ [] → AreNumbersOf f d n → ⊥ }
{}

/// The declarations of a file have their numbers, in order. A declaration without numbers is
/// refused.
pub fn numbers_of_files()
    ensures seen { (f : File) (d : Declaration) (n : Numbers) → f.declarations.items ≡ d ∷ []
        → AreNumbersOf f d n → AreNumbersIn f (n ∷ []) }
    ensures first { (f : File) (d e : Declaration) (m n : Numbers)
        → f.declarations.items ≡ d ∷ e ∷ [] → AreNumbersIn f (m ∷ n ∷ []) → AreNumbersOf f d m }
    ensures other { (f : File) (d : Declaration) → f.declarations.items ≡ d ∷ []
        → AreNumbersIn f [] → ⊥ }
{}
