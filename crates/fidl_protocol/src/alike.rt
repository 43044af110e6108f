//! Where two alike methods of a protocol are reported.
ghost use Rattle.std.specs.Prelude.{◌≡◌, ◌↔◌, ◌⊎◌, IsTrue, IfOk};
ghost use Rattle.fidl_composition.specs.Numbers.{AreCompositions};
ghost use Rattle.fidl_protocol.specs.Faults.{IsAtName, IsAtPath, IsReported};
ghost use Rattle.fidl_protocol.specs.Gathered.{ArePair, IsLaterOwn};

use crate::method::Method;
use fidl_composition::{Compositions, way_to};
use fidl_named::{DeclarationId, Named, Place};
use std::alloc::{AllocError, Global};

/// Two methods of a protocol.
#[derive(Clone, Copy, Drop)]
pub(crate) struct Pair {
    pub one: Method,
    pub other: Method,
}

/// Whether a method is declared by the protocol of this id itself, and behind another if that is so
/// too.
fn is_later_own(id: DeclarationId, method: &Method, other: &Method) -> bool
    ensures { IsTrue result ↔ IsLaterOwn id method.now other.now }
{
    method.protocol == id && (other.protocol != id || other.own.member < method.own.member)
}

/// The place at which two alike methods of the protocol of this id are reported: the name of its own
/// one, or the path of the composition through which it has the second.
pub(crate) fn place_of_two(
    alloc: Global,
    named: &Named<'_, '_>,
    compositions: &Compositions,
    id: DeclarationId,
    pair: &Pair,
) -> Result<Place, AllocError>
    requires known { AreCompositions named.now compositions.now }
    requires pair { ArePair named.now id pair.now }
    ensures { IfOk result (λ place. IsReported named.now id pair.now.other pair.now.one place
        ⊎ IsReported named.now id pair.now.one pair.now.other place) }
{
    if is_later_own(id, &pair.other, &pair.one) {
        return Ok(pair.other.place());
    }
    if is_later_own(id, &pair.one, &pair.other) {
        return Ok(pair.one.place());
    }
    match way_to(alloc, named, compositions, id, pair.other.protocol)? {
        Some(place) => Ok(place),
        None => unreachable!(),
    }
}
