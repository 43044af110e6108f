//! The definitions of all forms, and the rules over them.
ghost use Rattle.std.specs.Prelude.{◌<◌, ◌^◌, length, map, IfErr, IfOk, IfSome, IsNone, OnOk};
ghost use Rattle.fidl_tree.specs.Views.{file_view};
ghost use Rattle.fidl_consts.specs.Evaluated.{Evaluates};
ghost use Rattle.fidl_member_rules.specs.Rules.{RulesHold as LayoutsHold};
ghost use Rattle.fidl_member_rules.specs.ValueRules.{ValuesHold};
ghost use Rattle.fidl_lower_types.specs.Numbers.{all_forms};
ghost use Rattle.fidl_lower_types.specs.TermViews.{AreKnown};
ghost use Rattle.fidl_type_rules.specs.Uses.{UsesHold};
ghost use Rattle.fidl_ir.specs.Terms.{definitions_view};
ghost use Rattle.fidl_lower_layouts.specs.Definitions.{DefinitionsAre};
ghost use Rattle.fidl_ir_rules.specs.Faults.{RulesHold};
ghost use Rattle.fidl_types.specs.Marks.{marks_of};
ghost use Rattle.fidl_types.specs.Faults.{IsTrueOfTypes};

use crate::fault::TypeFault;
use crate::marks::marks_of;
use crate::places::place_of;
use fidl_ir::Definition;
use fidl_ir_rules::{DefinitionFault, check_definitions};
use fidl_lower_layouts::definitions;
use fidl_lower_types::Sources;
use std::alloc::AllocError;

/// The definitions of all forms, in their order. Nothing only where there are too many forms.
fn all_definitions(sources: &Sources<'_, '_, '_>) -> Result<Option<Vec<Definition>>, AllocError>
    requires known { AreKnown sources.now }
    requires evaluated { Evaluates sources.now.named.now }
    requires layouts { LayoutsHold (map file_view sources.now.named.now) }
    requires numbers { ValuesHold sources.now.named.now }
    requires uses { UsesHold sources.now.named.now }
    ensures found { IfOk result (λ found. IfSome found (λ ds. DefinitionsAre sources.now.named.now
        (definitions_view ds.items))) }
    ensures none { IfOk result (λ found. IsNone found
        → 2 ^ 32 < length (all_forms sources.now.named.now)) }
{
    definitions(sources)
}

/// Only resources hold resources, and no struct stands in itself.
fn check_marked(sources: &Sources<'_, '_, '_>, definitions: &[Definition]) -> Result<(), TypeFault>
    requires known { AreKnown sources.now }
    requires are { DefinitionsAre sources.now.named.now (definitions_view definitions.now) }
    ensures ok { OnOk result (RulesHold (definitions_view definitions.now)
        (marks_of (all_forms sources.now.named.now))) }
    ensures fault_is_true { IfErr result (IsTrueOfTypes sources.now.named.now) }
{
    let marks = marks_of(sources.alloc, sources.forms)?;
    match check_definitions(sources.alloc, definitions, &marks) {
        Ok(()) => Ok(()),
        Err(DefinitionFault::NotResource { definition, .. }) => Err(TypeFault::NotResource {
            place: place_of(sources.forms, definition),
        }),
        Err(DefinitionFault::InlineCycle { definition }) => Err(TypeFault::InlineCycle {
            place: place_of(sources.forms, definition),
        }),
        Err(DefinitionFault::Memory) => Err(TypeFault::Memory),
    }
}

/// The definitions of all forms, which keep the rules over definitions.
pub(crate) fn kept_definitions(sources: &Sources<'_, '_, '_>) -> Result<Vec<Definition>, TypeFault>
    requires known { AreKnown sources.now }
    requires evaluated { Evaluates sources.now.named.now }
    requires layouts { LayoutsHold (map file_view sources.now.named.now) }
    requires numbers { ValuesHold sources.now.named.now }
    requires uses { UsesHold sources.now.named.now }
    ensures are { IfOk result (λ ds. DefinitionsAre sources.now.named.now
        (definitions_view ds.items)) }
    ensures kept { IfOk result (λ ds. RulesHold (definitions_view ds.items)
        (marks_of (all_forms sources.now.named.now))) }
    ensures fault_is_true { IfErr result (IsTrueOfTypes sources.now.named.now) }
{
    let Some(definitions) = all_definitions(sources)? else {
        // A number of a definition has 32 bits, so more forms than that are as good as no memory.
        return Err(TypeFault::Memory);
    };
    check_marked(sources, &definitions)?;
    Ok(definitions)
}
