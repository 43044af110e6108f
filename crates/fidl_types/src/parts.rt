//! The rules of whole files, crate by crate, and what a refusal of each says.
ghost use Rattle.std.specs.Prelude.{◌≢◌, List, map, IfErr, OnOk};
ghost use Rattle.fidl_tree.specs.Views.{file_view};
ghost use Rattle.fidl_tree.specs.declared.file.File.{File as Tree};
ghost use Rattle.fidl_member_rules.specs.declared.fault.RuleFault.TheVariants as Rules;
ghost use Rattle.fidl_member_rules.specs.Rules.{RulesHold, IsTrueOfRules};
ghost use Rattle.fidl_member_rules.specs.declared.value_fault.ValuesFault.TheVariants as Values;
ghost use Rattle.fidl_member_rules.specs.ValueRules.{ValuesHold, IsTrueOfValues};
ghost use Rattle.fidl_resource_rules.specs.declared.fault.ResourceFault.TheVariants as Resources;
ghost use Rattle.fidl_resource_rules.specs.Resources.{ResourcesHold, IsTrueOfResources};
ghost use Rattle.fidl_type_rules.specs.declared.fault.UseFault.TheVariants as Uses;
ghost use Rattle.fidl_type_rules.specs.Uses.{UsesHold, IsTrueOfUses};
ghost use Rattle.fidl_lower_types.specs.TermViews.{AreKnown};
ghost use Rattle.fidl_types.specs.declared.fault.TypeFault.TheVariants as Faults;
ghost use Rattle.fidl_types.specs.Faults.{IsTrueOfTypes};

use crate::fault::TypeFault;
use fidl_lower_types::Sources;
use fidl_member_rules::{RuleFault, ValuesFault, check_layouts, check_values};
use fidl_resource_rules::{ResourceFault, check_resources};
use fidl_type_rules::{UseFault, check_uses};

/// A refusal of layouts.
fn of_layouts(fault: RuleFault) -> TypeFault
    ensures fault_is_true { (files : List Tree) → IsTrueOfRules (map file_view files) fault
        → IsTrueOfTypes files result }
    ensures memory { fault ≢ Rules.Memory → result ≢ Faults.Memory }
{
    match fault {
        RuleFault::BadOrdinal { place } => TypeFault::BadOrdinal { place },
        RuleFault::DuplicateOrdinal { place } => TypeFault::DuplicateOrdinal { place },
        RuleFault::EmptyStrict { place } => TypeFault::EmptyStrict { place },
        RuleFault::OutOfProfile { place } => TypeFault::OutOfProfile { place },
        RuleFault::Memory => TypeFault::Memory,
    }
}

/// A refusal of numbers.
fn of_numbers(fault: ValuesFault) -> TypeFault
    ensures fault_is_true { (files : List Tree) → IsTrueOfValues files fault
        → IsTrueOfTypes files result }
    ensures memory { fault ≢ Values.Memory → result ≢ Faults.Memory }
{
    match fault {
        ValuesFault::DuplicateValue { place } => TypeFault::DuplicateValue { place },
        ValuesFault::NotPowerOfTwo { place } => TypeFault::NotPowerOfTwo { place },
        ValuesFault::Memory => TypeFault::Memory,
    }
}

/// A refusal of resource definitions.
fn of_resources(fault: ResourceFault) -> TypeFault
    ensures fault_is_true { (files : List Tree) → IsTrueOfResources files fault
        → IsTrueOfTypes files result }
    ensures memory { fault ≢ Resources.Memory → result ≢ Faults.Memory }
{
    match fault {
        ResourceFault::BadConstraint { place } => TypeFault::BadConstraint { place },
        ResourceFault::Memory => TypeFault::Memory,
    }
}

/// A refusal of the use of a type.
fn of_uses(fault: UseFault) -> TypeFault
    ensures fault_is_true { (files : List Tree) → IsTrueOfUses files fault
        → IsTrueOfTypes files result }
    ensures memory { fault ≢ Uses.Memory → result ≢ Faults.Memory }
{
    match fault {
        UseFault::BadConstraint { place } => TypeFault::BadConstraint { place },
        UseFault::BadBox { place } => TypeFault::BadBox { place },
        UseFault::OptionalMember { place } => TypeFault::OptionalMember { place },
        UseFault::OutOfProfile { place } => TypeFault::OutOfProfile { place },
        UseFault::Memory => TypeFault::Memory,
    }
}

/// Ordinals, members and attributes keep the rules of layouts.
fn layouts_hold(sources: &Sources<'_, '_, '_>) -> Result<(), TypeFault>
    ensures ok { OnOk result (RulesHold (map file_view sources.now.named.now)) }
    ensures fault_is_true { IfErr result (IsTrueOfTypes sources.now.named.now) }
{
    match check_layouts(sources.alloc, sources.named) {
        Ok(()) => Ok(()),
        Err(fault) => Err(of_layouts(fault)),
    }
}

/// The numbers of bits and enums keep theirs.
fn numbers_hold(sources: &Sources<'_, '_, '_>) -> Result<(), TypeFault>
    requires known { AreKnown sources.now }
    ensures ok { OnOk result (ValuesHold sources.now.named.now) }
    ensures fault_is_true { IfErr result (IsTrueOfTypes sources.now.named.now) }
{
    match check_values(sources.alloc, sources.named, sources.consts) {
        Ok(()) => Ok(()),
        Err(fault) => Err(of_numbers(fault)),
    }
}

/// Resource definitions do.
fn resources_hold(sources: &Sources<'_, '_, '_>) -> Result<(), TypeFault>
    requires known { AreKnown sources.now }
    ensures ok { OnOk result (ResourcesHold sources.now.named.now) }
    ensures fault_is_true { IfErr result (IsTrueOfTypes sources.now.named.now) }
{
    match check_resources(sources) {
        Ok(()) => Ok(()),
        Err(fault) => Err(of_resources(fault)),
    }
}

/// Each written type is proper where it stands.
fn uses_hold(sources: &Sources<'_, '_, '_>) -> Result<(), TypeFault>
    requires known { AreKnown sources.now }
    ensures ok { OnOk result (UsesHold sources.now.named.now) }
    ensures fault_is_true { IfErr result (IsTrueOfTypes sources.now.named.now) }
{
    match check_uses(sources) {
        Ok(()) => Ok(()),
        Err(fault) => Err(of_uses(fault)),
    }
}

/// All rules hold that need no definitions.
pub(crate) fn check_parts(sources: &Sources<'_, '_, '_>) -> Result<(), TypeFault>
    requires known { AreKnown sources.now }
    ensures layouts { OnOk result (RulesHold (map file_view sources.now.named.now)) }
    ensures numbers { OnOk result (ValuesHold sources.now.named.now) }
    ensures resources { OnOk result (ResourcesHold sources.now.named.now) }
    ensures uses { OnOk result (UsesHold sources.now.named.now) }
    ensures fault_is_true { IfErr result (IsTrueOfTypes sources.now.named.now) }
{
    layouts_hold(sources)?;
    numbers_hold(sources)?;
    resources_hold(sources)?;
    uses_hold(sources)
}
