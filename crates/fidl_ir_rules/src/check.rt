//! The rules over definitions.
ghost use Rattle.std.specs.Prelude.{OnOk, IfErr};
ghost use Rattle.fidl_ir.specs.Terms.{definitions_view};
ghost use Rattle.fidl_ir_rules.specs.Faults.{IsTrueOf, RulesHold};

use crate::fault::DefinitionFault;
use crate::inline::check_inline;
use crate::mark::Mark;
use crate::resources::check_resources;
use fidl_ir::Definition;
use std::alloc::Global;

/// The rules of definitions (docs/language.md, "Rules of definitions"). The marks are those of the
/// definitions, by their numbers; a definition past the last mark isn't marked. Refused with
/// NotResource at the number of a definition that isn't marked and that of a member which holds a
/// resource, with InlineCycle at the number of a struct that stands in itself, and with Memory
/// (public source: the FIDL language specification, "Resource types" and "Structs").
pub fn check_definitions(
    alloc: Global,
    definitions: &[Definition],
    marks: &[Mark],
) -> Result<(), DefinitionFault>
    ensures ok { OnOk result (RulesHold (definitions_view definitions.now) marks.now) }
    ensures fault_is_true { IfErr result (IsTrueOf (definitions_view definitions.now) marks.now) }
{
    check_resources(alloc, definitions, marks)?;
    check_inline(alloc, definitions)
}
