//! The names of the methods of a protocol.
ghost use Rattle.std.specs.Prelude.{◌≡◌, IfOk, IfSome, IsNone};
ghost use Rattle.fidl_named.specs.declared.place.DeclarationId.{DeclarationId as Id};
ghost use Rattle.fidl_protocol.specs.Methods.{IsDeclared, HaveOneName};
ghost use Rattle.fidl_protocol.specs.Gathered.{AreGathered, ArePair, name_text, NamesDiffer};

use crate::alike::Pair;
use crate::method::Method;
use fidl_named::Named;
use indexmap::IndexSet;
use std::alloc::{AllocError, Global};

/// The name of a method, without that of its protocol.
fn name_of(alloc: Global, named: &Named<'_, '_>, method: &Method) -> Result<Vec<u8>, AllocError>
    requires { IsDeclared named.now method.now }
    ensures { IfOk result (λ name. name.items ≡ name_text named.now method.now) }
{
    let text = named.file(method.protocol.file).text(method.own.name);
    let mut name = Vec::new(alloc);
    name.extend_from_slice(text)?;
    Ok(name)
}

/// Two methods of a protocol that have one name: the first that has the name of one before it, and
/// that one.
pub(crate) fn two_of_one_name(
    alloc: Global,
    named: &Named<'_, '_>,
    methods: &[Method],
) -> Result<Option<Pair>, AllocError>
    requires { (p : Id) × AreGathered named.now p methods.now }
    ensures pair { IfOk result (λ found. IfSome found (λ pair. (p : Id)
        → AreGathered named.now p methods.now → ArePair named.now p pair)) }
    ensures name { IfOk result (λ found. IfSome found (λ pair. HaveOneName named.now pair.one
        pair.other)) }
    ensures none { IfOk result (λ found. IsNone found → NamesDiffer named.now methods.now) }
{
    let mut names = IndexSet::new(alloc);
    for method in methods {
        let (place, is_new) = names.insert_full(name_of(alloc, named, method)?)?;
        if !is_new {
            return Ok(Some(Pair {
                one: methods[place],
                other: *method,
            }));
        }
    }
    Ok(None)
}
