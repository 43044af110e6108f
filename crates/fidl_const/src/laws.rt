//! Laws of the definitions: each is the contract of a function that does nothing.
ghost use Rattle.std.specs.Prelude.{◌≡◌, ◌≢◌, ◌++◌, ◌∷◌, [], ℕ, List};
ghost use Rattle.std.specs.List.{Contains};
ghost use Rattle.fidl_tree.specs.declared.file.File.{File};
ghost use Rattle.fidl_tree.specs.Syntax.{Path, Value, Operand};
ghost use Rattle.fidl_tree.specs.declared.type_constructor.TypeConstructor.{TypeConstructor};
ghost use Rattle.fidl_named.specs.declared.meaning.Meaning.{Meaning};
ghost use Rattle.fidl_named.specs.declared.meaning.Wanted.TheVariants as Kind;
ghost use Rattle.fidl_consts.specs.declared.const_type.ConstType.{ConstType};
ghost use Rattle.fidl_consts.specs.declared.fault.ConstFault.{ConstFault};
ghost use Rattle.fidl_consts.specs.declared.fault.ConstFault.TheVariants as Faults;
ghost use Rattle.fidl_consts.specs.PlainValues.{PlainValue};
ghost use Rattle.fidl_consts.specs.Types.{IsStringType};
ghost use Rattle.fidl_consts.specs.Dependencies.{TypeUses, constraint_paths};
ghost use Rattle.fidl_consts.specs.Values.{ValueIs, Offers, first_operand, later_operands};
ghost use Rattle.fidl_consts.specs.Refusals.{ValueFails, operand_span, value_span};
ghost use Rattle.fidl_consts.specs.Evaluated.{Evaluates};
ghost use Rattle.fidl_const.specs.Evaluating.{IsTrueOfEvaluating};

/// An expression has at most one value where a type is wanted; what has a value of its own has just
/// that one, of one type.
pub fn values_are_unique()
    ensures expressions { (files : List File) (f : File) (t : ConstType) (v : Value)
        (one other : PlainValue)
        → ValueIs files f t v one → ValueIs files f t v other → one ≡ other }
    ensures meanings { (files : List File) (m : Meaning) (t s : ConstType) (one other : PlainValue)
        → Offers files m t one → Offers files m s other → (t ≡ s) × (one ≡ other) }
{}

/// What is refused as a value has none, so an expression is read or refused, and never both.
pub fn refused_expressions_have_no_value()
    ensures { (files : List File) (f : File) (number : ℕ) (t : ConstType) (v : Value)
        (fault : ConstFault)
        (k : PlainValue) → ValueFails files f number t fault v → ValueIs files f t v k → ⊥ }
{}

/// Files of which a refusal is true don't evaluate, so files are accepted or refused, and never
/// rightly both. Memory that ran out says nothing of the files.
pub fn refused_files_do_not_evaluate()
    ensures { (files : List File) (fault : ConstFault) → fault ≢ Faults.Memory
        → IsTrueOfEvaluating files fault → Evaluates files → ⊥ }
{}

/// A type depends on the names in its constraints where it is a string's, and nowhere else.
pub fn only_bounds_of_strings_are_read()
    ensures string { (files : List File) (f : File) (t : TypeConstructor) (path : Path)
        → IsStringType files f t
        → Contains (constraint_paths f t) path → TypeUses files f t Kind.Value path }
    ensures other { (files : List File) (f : File) (t : TypeConstructor) (path : Path)
        → (IsStringType files f t → ⊥) → TypeUses files f t Kind.Value path → ⊥ }
{}

/// The place of a value begins with its first operand and ends with its last.
pub fn values_end_with_their_last_operand()
    ensures alone { (v : Value) → later_operands v ≡ []
        → value_span v ≡ operand_span (first_operand v) }
    ensures from { (v : Value) → (value_span v).from ≡ (operand_span (first_operand v)).from }
    ensures to { (v : Value) (before : List Operand) (last : Operand)
        → later_operands v ≡ before ++ last ∷ []
        → (value_span v).to ≡ (operand_span last).to }
{}
