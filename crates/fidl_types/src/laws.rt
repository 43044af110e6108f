//! Laws of the rules taken together: the contracts of functions that do nothing.
ghost use Rattle.std.specs.Prelude.{◌≡◌, ◌≢◌, ◌≤◌, ◌^◌, List, length, map};
ghost use Rattle.fidl_tree.specs.declared.file.File.{File};
ghost use Rattle.fidl_tree.specs.Views.{file_view};
ghost use Rattle.fidl_consts.specs.Evaluated.{Evaluates};
ghost use Rattle.fidl_member_rules.specs.Rules.{RulesHold};
ghost use Rattle.fidl_member_rules.specs.ValueRules.{ValuesHold};
ghost use Rattle.fidl_lower_types.specs.Numbers.{all_forms};
ghost use Rattle.fidl_type_rules.specs.Uses.{UsesHold};
ghost use Rattle.fidl_wire.specs.Term.{Term};
ghost use Rattle.fidl_lower_layouts.specs.Definitions.{DefinitionsAre};
ghost use Rattle.fidl_types.specs.declared.fault.TypeFault.{TypeFault};
ghost use Rattle.fidl_types.specs.declared.fault.TypeFault.TheVariants as Faults;
ghost use Rattle.fidl_types.specs.Types.{TypesAre};
ghost use Rattle.fidl_types.specs.Faults.{IsTrueOfTypes};

/// Where files evaluate, their layouts and the numbers of their members keep the rules and their
/// types are proper where they are used, each form has its definition; the number of forms fits into
/// 32 bits.
pub fn definitions_exist()
    ensures { (files : List File) → Evaluates files → RulesHold (map file_view files)
        → ValuesHold files → UsesHold files → length (all_forms files) ≤ 2 ^ 32
        → (ts : List Term) × DefinitionsAre files ts }
{}

/// Files of which a refusal is true don't keep all rules, whatever their definitions, so files are
/// accepted or refused, and never rightly both. Memory that ran out says nothing of the files.
pub fn refused_types_break_a_rule()
    ensures { (files : List File) (ts : List Term) (fault : TypeFault) → fault ≢ Faults.Memory
        → IsTrueOfTypes files fault → TypesAre files ts → ⊥ }
{}

/// Files that keep all rules have one list of definitions.
pub fn the_types_of_files_are_one()
    ensures { (files : List File) (ts us : List Term) → TypesAre files ts → TypesAre files us
        → ts ≡ us }
{}
