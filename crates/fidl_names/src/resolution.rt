//! The rules of resolving, but that each name has a meaning, and what their check finds out.
ghost use Rattle.std.specs.Prelude.{map, IfErr, IfOk, OnOk};
ghost use Rattle.fidl_named.specs.NameMaps.{texts_view};
ghost use Rattle.fidl_named.specs.Aliases.{rows_of};
ghost use Rattle.fidl_named.specs.KeptNames.{kept_rows};
ghost use Rattle.fidl_named.specs.Scopes.{IsKnown};
ghost use Rattle.fidl_names.specs.Resolved.{RulesHold, IsTrueOfResolving};

use crate::aliases::check_aliases;
use crate::import_cycles::check_import_cycles;
use crate::keeping::keep_names;
use crate::rules::{all_imports, all_members, libraries};
use fidl_named::{AliasEnd, FileSet, KeptNames, NameFault, SetScope};
use indexmap::IndexMap;

/// What each file sees by its imports, the ends of each declaration, and what the names of each file
/// mean.
#[derive(Drop)]
pub(crate) struct Resolution<'f> {
    pub visible_names: Vec<IndexMap<Vec<u8>, Vec<u8>>>,
    pub ends: Vec<Vec<AliasEnd>>,
    pub kept: Vec<KeptNames<'f>>,
}

/// Checks all rules but that each name has a meaning.
pub(crate) fn check_rules<'f>(set: &FileSet<'f, '_>) -> Result<Resolution<'f>, NameFault>
    ensures known { IfOk result (λ r. IsKnown set.now
        (map (λ v. texts_view v.entries) r.visible_names.items) (rows_of r.ends.items)
        (kept_rows r.kept.items)) }
    ensures rules { OnOk result (RulesHold set.now) }
    ensures fault_is_true { IfErr result (IsTrueOfResolving set.now) }
{
    all_members(set)?;
    let libraries = libraries(set)?;
    let visible_names = all_imports(set, &libraries)?;
    check_import_cycles(set, &libraries)?;
    let names = SetScope {
        set,
        visible_names: &visible_names,
    };
    let ends = check_aliases(&names)?;
    let kept = keep_names(&names)?;
    Ok(Resolution {
        visible_names,
        ends,
        kept,
    })
}
