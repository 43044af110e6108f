//! Worked facts: what the definitions give for small values and types.
ghost use Rattle.std.specs.Prelude.{ℕ, ◌≡◌, ◌≢◌, [], ◌∷◌, List, Some, None, true, false};
ghost use Rattle.fidl_span.specs.declared.words.Span.{Span};
ghost use Rattle.fidl_tree.specs.Syntax.{Path, Value, Operand, Arguments, Members, bitwise_or};
ghost use Rattle.fidl_tree.specs.Syntax.{no_operands, next_operand, bits_kind, enum_kind};
ghost use Rattle.fidl_tree.specs.Syntax.{number_operand};
ghost use Rattle.fidl_tree.specs.Syntax.{bool_operand, path_operand, group_operand, named_type};
ghost use Rattle.fidl_tree.specs.Syntax.{layout_type};
ghost use Rattle.fidl_tree.specs.Syntax.{struct_layout};
ghost use Rattle.fidl_tree.specs.Views.{path_view, value_view};
ghost use Rattle.fidl_tree.specs.declared.file.File.{File};
ghost use Rattle.fidl_tree.specs.declared.path.Path.{Path as PathNode};
ghost use Rattle.fidl_tree.specs.declared.value.Value.{Value as ValueNode};
ghost use Rattle.fidl_named.specs.Constraints.{is_optional};
ghost use Rattle.fidl_named.specs.Places.{a_type, a_number};
ghost use Rattle.fidl_named.specs.declared.place.DeclarationId.{DeclarationId};
ghost use Rattle.fidl_named.specs.declared.meaning.Meaning.TheVariants as Given;
ghost use Rattle.fidl_consts.specs.declared.fault.ConstFault.{ConstFault};
ghost use Rattle.fidl_consts.specs.declared.scope.FileScope.{FileScope};
ghost use Rattle.fidl_consts.specs.declared.const_value.ConstValue.{ConstValue};
ghost use Rattle.fidl_consts.specs.declared.const_type.ConstType.{ConstType};
ghost use Rattle.fidl_consts.specs.declared.const_type.NumberKind.TheVariants as Kinds;
ghost use Rattle.fidl_consts.specs.declared.const_type.ConstType.TheVariants as ty;
ghost use Rattle.fidl_consts.specs.PlainValues.{a_truth, seen};
ghost use Rattle.fidl_consts.specs.Scopes.{ReadsOrOperands, RefusesValue};
ghost use Rattle.fidl_const.specs.PlaceScopes.{RefusesBound};
ghost use Rattle.fidl_const.specs.PlaceScopes.{number_place, type_place};
ghost use Rattle.fidl_named.specs.Scopes.{OfFile};
ghost use Rattle.fidl_consts.specs.Types.{underlying_kind};
ghost use Rattle.fidl_consts.specs.Values.{first_operand, later_operands, literal, name_in, inside};
ghost use Rattle.fidl_consts.specs.Refusals.{operand_span, type_span};
ghost use Rattle.fidl_consts.specs.Constraints.{member_of_property};

/// `a | b | c` begins with `a`, and `b` and `c` come after it, in this order.
pub fn operands_in_order()
    ensures first { (a b c : Operand)
        → first_operand (bitwise_or a (next_operand b (next_operand c no_operands))) ≡ a }
    ensures later { (a b c : Operand)
        → later_operands (bitwise_or a (next_operand b (next_operand c no_operands))) ≡ b ∷ c ∷ [] }
    ensures other { (a b : Operand)
        → later_operands (bitwise_or a (next_operand b no_operands)) ≢ a ∷ b ∷ [] }
{}

/// A path is a name, and one in parentheses is a value in parentheses.
pub fn names_and_groups()
    ensures name { (p : Path) → name_in (path_operand p) ≡ Some p }
    ensures other { (l r : Span) (p : Path)
        → name_in (group_operand l (bitwise_or (path_operand p) no_operands) r) ≢ Some p }
    ensures inside { (l r : Span) (v : Value) → inside (group_operand l v r) ≡ Some v }
{}

/// `true` is a literal, and no `false`; a name is none.
pub fn truths_are_literals()
    ensures seen { (f : File) (s : Span) → literal f (bool_operand true s) ≡ Some (a_truth true) }
    ensures other { (f : File) (s : Span) → literal f (bool_operand true s) ≢ Some (a_truth false) }
    ensures name { (f : File) (p : Path) → literal f (path_operand p) ≡ None }
{}

/// A number begins with its minus, and a group with its parenthesis.
pub fn places_of_operands()
    ensures minus { (m d : Span) → (operand_span (number_operand (Some m) d)).from ≡ m.from }
    ensures digits { (m d : Span) → (operand_span (number_operand (Some m) d)).to ≡ d.to }
    ensures left { (l r : Span) (v : Value) → (operand_span (group_operand l v r)).from ≡ l.from }
    ensures right { (l r : Span) (v : Value) → (operand_span (group_operand l v r)).to ≡ r.to }
{}

/// A type is where its name is, from the first component to the last; a layout at its keyword.
pub fn places_of_types()
    ensures from { (s t : Span) (a : Arguments) (vs : List Value)
        → (type_span (named_type (s ∷ t ∷ []) a vs)).from ≡ s.from }
    ensures to { (s t : Span) (a : Arguments) (vs : List Value)
        → (type_span (named_type (s ∷ t ∷ []) a vs)).to ≡ t.to }
    ensures layout { (k : Span) (ms : Members) (vs : List Value)
        → type_span (layout_type [] (struct_layout false k ms) vs) ≡ k }
{}

/// An enum may be of `int8`, and bits may not.
pub fn signed_enums_and_no_signed_bits()
    ensures seen { underlying_kind enum_kind (Some (ty.Number Kinds.Int8)) ≡ Some Kinds.Int8 }
    ensures other { underlying_kind bits_kind (Some (ty.Number Kinds.Int8)) ≢ Some Kinds.Int8 }
{}

/// What is said of the file of a number is said of that one, and of nothing where there is none.
pub fn files_by_their_numbers()
    ensures first { (f g : File) → OfFile (f ∷ g ∷ []) 0 (λ h. h ≡ g) → f ≡ g }
    ensures other { (f g : File) → OfFile (f ∷ g ∷ []) 1 (λ h. h ≡ f) → g ≡ f }
    ensures none { (f : File) → OfFile (f ∷ []) 1 (λ h. h ≢ h) }
{}

/// The member of a property has the property's number and its own.
pub fn members_of_properties()
    ensures member { (p : DeclarationId) (n : ℕ)
        → member_of_property (record { id = p; number = n }) 3 ≡ Given.PropertyMember p n 3 }
    ensures other { (p : DeclarationId) (n : ℕ)
        → member_of_property (record { id = p; number = n }) 3 ≢ Given.Member p 3 }
{}

/// Without further operands a value stays as it is.
pub fn values_without_or_operands()
    ensures seen { (s : FileScope) (t : ConstType) (k : ConstValue) → ReadsOrOperands s t k [] k }
    ensures other { (s : FileScope) (t : ConstType) (k l : ConstValue) → seen l ≢ seen k
        → ReadsOrOperands s t k [] l → ⊥ }
{}

/// A bound is refused as a value of `uint32` is, and the word `optional` never.
pub fn refused_bounds()
    ensures seen { (s : FileScope) (v : ValueNode) (fault : ConstFault)
        → is_optional s.file.tree.now (value_view v) ≡ false
        → RefusesValue s (ty.Number Kinds.Uint32) v fault → RefusesBound s v fault }
    ensures other { (s : FileScope) (v : ValueNode) (fault : ConstFault)
        → is_optional s.file.tree.now (value_view v) ≡ true → RefusesBound s v fault → ⊥ }
{}

/// The place of a type has its name, and that of a number the number.
pub fn places_in_plain_data()
    ensures named { (p : PathNode) → type_place None p None ≡ a_type None (path_view p) [] }
    ensures number { (w : Span) → number_place None w ≡ a_number None w }
    ensures other { (p : PathNode) (w : Span) → type_place None p None ≢ number_place None w }
{}
