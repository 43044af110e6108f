//! Types behind their aliases: from alias to alias.
ghost use Rattle.std.specs.Prelude.{◌≡◌, ◌++◌, List, length, IfOk, IfSome, IsNone, OnOk};
ghost use Rattle.fidl_constraints.specs.declared.parts.Part.{Part};
ghost use Rattle.fidl_constraints.specs.Behind.{Core as Plain, Behind, given_in};
ghost use Rattle.fidl_constraints.specs.BehindViews.{core_view, lists_view, use_view};
ghost use Rattle.fidl_constraints.specs.Followed.{IsFollowed};
ghost use Rattle.fidl_constraints.specs.Gives.{IsGathered};

use crate::heads::{Core, Given};
use crate::parts::KINDS;
use crate::targets::{Target, leads_to};
use crate::type_use::{TypeUse, own_constraints};
use fidl_named::Named;
use std::alloc::{AllocError, Global};

/// What the aliases of a type lead to.
#[derive(Drop)]
pub(crate) enum Followed<'f> {
    /// What the type is behind them.
    Ends(Core<'f>),
    /// No type, since a name on the way means none.
    Nothing,
    /// More lists of constraints than were asked for.
    Many,
}

/// Appends the list of a type's own constraints, if it has some.
fn push_given<'f>(
    given: &mut Vec<Given<'f>>,
    file_index: usize,
    of: TypeUse<'f>,
) -> Result<(), AllocError>
    ensures lists { OnOk result (lists_view given.new.items
        ≡ lists_view given.old.items ++ given_in file_index (use_view of.entry)) }
    ensures long { OnOk result (length (lists_view given.old.items) ≡ length given.old.items
        → length (lists_view given.new.items) ≡ length given.new.items) }
{
    let constraints = own_constraints(of);
    if constraints.is_none() {
        return Ok(());
    }
    given.push(Given {
        file_index,
        constraints,
    })?;
    Ok(())
}

/// Follows the aliases of a type in the file of this number, as long as no more lists of
/// constraints are on the way than `most`.
fn follow<'f>(
    alloc: Global,
    named: &Named<'f, '_>,
    file_index: usize,
    of: TypeUse<'f>,
    most: usize,
) -> Result<Followed<'f>, AllocError>
    ensures { IfOk result (IsFollowed named.now file_index (use_view of.entry) most) }
{
    let mut given = Vec::new(alloc);
    let mut at = file_index;
    let mut current = of;
    'aliases: for _alias in 0..u64::MAX {
        if given.len() > most {
            return Ok(Followed::Many);
        }
        push_given(&mut given, at, current)?;
        match leads_to(named, at, current)? {
            None => return Ok(Followed::Nothing),
            Some(Target::Ends { file_index, head }) => {
                return Ok(Followed::Ends(Core {
                    file_index,
                    head,
                    given,
                }));
            }
            Some(Target::Follows { file_index, next }) => {
                at = file_index;
                current = next;
            }
        }
    }
    // No memory holds as many aliases.
    Err(AllocError)
}

/// What a type in the file of this number is behind its aliases, with all constraints that it is
/// given on the way (public source: the FIDL language specification, "Aliasing"). Nothing where a
/// name on the way means no type.
///
/// `AllocError`: memory ran out.
pub fn behind<'f>(
    alloc: Global,
    named: &Named<'f, '_>,
    file_index: usize,
    of: TypeUse<'f>,
) -> Result<Option<Core<'f>>, AllocError>
    ensures found { IfOk result (λ found. IfSome found
        (λ core. Behind named.now file_index (use_view of.entry) (core_view core))) }
    ensures none { IfOk result (λ found. IsNone found
        → (core : Plain) → Behind named.now file_index (use_view of.entry) core → ⊥) }
{
    match follow(alloc, named, file_index, of, usize::MAX)? {
        Followed::Ends(core) => Ok(Some(core)),
        Followed::Nothing => Ok(None),
        // No memory holds as many lists.
        Followed::Many => Err(AllocError),
    }
}

/// What a type in the file of this number is behind its aliases, where no more lists of constraints
/// are on the way than there are kinds of parts: each list gives a part, and none is given twice.
pub(crate) fn behind_few<'f>(
    alloc: Global,
    named: &Named<'f, '_>,
    file_index: usize,
    of: TypeUse<'f>,
) -> Result<Option<Core<'f>>, AllocError>
    ensures found { IfOk result (λ found. IfSome found
        (λ core. Behind named.now file_index (use_view of.entry) (core_view core))) }
    ensures none { IfOk result (λ found. IsNone found → (core : Plain) (parts : List Part)
        → IsGathered named.now file_index (use_view of.entry) core parts → ⊥) }
{
    match follow(alloc, named, file_index, of, KINDS)? {
        Followed::Ends(core) => Ok(Some(core)),
        Followed::Nothing => Ok(None),
        Followed::Many => Ok(None),
    }
}
