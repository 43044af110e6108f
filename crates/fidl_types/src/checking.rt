//! The check of all types of files.
ghost use Rattle.std.specs.Prelude.{◌≡◌, List, IfErr, IfOk, OnOk};
ghost use Rattle.fidl_consts.specs.Evaluated.{Evaluates};
ghost use Rattle.fidl_consts.specs.Tables.{AreConsts};
ghost use Rattle.fidl_lower_types.specs.TermViews.{AreKnown};
ghost use Rattle.fidl_wire.specs.Term.{Term};
ghost use Rattle.fidl_ir.specs.Terms.{definitions_view};
ghost use Rattle.fidl_types.specs.Types.{TypesAre};
ghost use Rattle.fidl_types.specs.Faults.{IsTrueOfTypes};

use crate::checked::Types;
use crate::definitions::kept_definitions;
use crate::fault::TypeFault;
use crate::parts::check_parts;
use fidl_consts::Consts;
use fidl_declarations::forms;
use fidl_ir::Definition;
use fidl_lower_types::{Sources, layout_numbers};
use fidl_named::Named;
use std::alloc::Global;

/// The definitions of all forms, where the files keep all rules.
fn checked_definitions(sources: &Sources<'_, '_, '_>) -> Result<Vec<Definition>, TypeFault>
    requires known { AreKnown sources.now }
    requires evaluated { Evaluates sources.now.named.now }
    ensures ok { IfOk result (λ ds. TypesAre sources.now.named.now (definitions_view ds.items)) }
    ensures fault_is_true { IfErr result (IsTrueOfTypes sources.now.named.now) }
{
    check_parts(sources)?;
    kept_definitions(sources)
}

/// Checks all types of files, and gives the definitions of their forms (public source: the FIDL
/// language specification). `named` are files that evaluate, and `consts` the values of their
/// constants; both are spent either way. What each refusal means says `TypeFault`.
pub fn check<'f, 's>(
    alloc: Global,
    named: Named<'f, 's>,
    consts: Consts,
) -> Result<Types<'f, 's>, TypeFault>
    requires evaluated { Evaluates named }
    requires known { AreConsts named consts }
    ensures ok { IfOk result (λ types. types ≡ named.entry) }
    ensures kept { OnOk result ((ts : List Term) × TypesAre named.entry ts) }
    ensures fault_is_true { IfErr result (IsTrueOfTypes named.entry) }
{
    let forms = forms(alloc, &named)?;
    let numbers = layout_numbers(alloc, &forms)?;
    let sources = Sources {
        alloc,
        named: &named,
        consts: &consts,
        forms: &forms,
        numbers: &numbers,
    };
    let definitions = checked_definitions(&sources)?;
    Ok(Types {
        named,
        consts,
        forms,
        numbers,
        definitions,
    })
}
