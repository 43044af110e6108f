//! The ordinals of the methods of a protocol.
ghost use Rattle.std.specs.Prelude.{◌≡◌, ◌<◌, IfOk, IfSome, IsNone, List};
ghost use Rattle.std.specs.List.{AllPairs};
ghost use Rattle.std.specs.List.Sorted.{IsNonDecreasingBy};
ghost use Rattle.fidl_tree.specs.declared.file.File.{File as Tree};
ghost use Rattle.fidl_named.specs.declared.place.DeclarationId.{DeclarationId as Id};
ghost use Rattle.fidl_protocol.specs.declared.method.Method.{Method as Entry};
ghost use Rattle.fidl_protocol.specs.Faults.{HaveOneOrdinal};
ghost use Rattle.fidl_protocol.specs.Gathered.{AreGathered, ArePair};

use crate::alike::Pair;
use crate::method::Method;
use std::alloc::AllocError;

/// The methods of a protocol in the order of their ordinals.
pub(crate) fn in_order(methods: Vec<Method>) -> Result<Vec<Method>, AllocError>
    ensures gathered { (files : List Tree) (p : Id) → AreGathered files p methods.items
        → IfOk result (λ ms. AreGathered files p ms.items) }
    ensures sorted { IfOk result (λ ms. IsNonDecreasingBy (λ (m : Entry). m.own.ordinal)
        ms.items) }
{
    let mut methods = methods;
    methods.sort_by_key(|method| method.own.ordinal)?;
    Ok(methods)
}

/// The first two methods of one ordinal among those of a protocol that stand in the order of their
/// ordinals.
pub(crate) fn two_of_one_ordinal(methods: &[Method]) -> Option<Pair>
    requires { IsNonDecreasingBy (λ (m : Entry). m.own.ordinal) methods.now }
    ensures pair { IfSome result (λ pair. (files : List Tree) (p : Id)
        → AreGathered files p methods.now → ArePair files p pair) }
    ensures ordinal { IfSome result (λ pair. HaveOneOrdinal pair.one pair.other) }
    ensures none { IsNone result
        → AllPairs (λ (one other : Entry). one.own.ordinal < other.own.ordinal) methods.now }
{
    for index in 1..methods.len() {
        let (one, other) = (methods[index - 1], methods[index]);
        if one.own.ordinal >= other.own.ordinal {
            return Some(Pair { one, other });
        }
    }
    None
}
