//! Members of one list have different names.
ghost use Rattle.std.specs.Prelude.{IfErr, OnOk};
ghost use Rattle.std.specs.List.{AllByRecursion};
ghost use Rattle.fidl_tree.specs.Views.{declared_view, declaration_view, file_view};
ghost use Rattle.fidl_names.specs.MemberLists.{held, body_lists, NamesDiffer, ListsDiffer};
ghost use Rattle.fidl_names.specs.MemberLists.{DistinctMembers, RepeatsName, RepeatsIn};
ghost use Rattle.fidl_names.specs.MemberLists.{RepeatsMember, IsRepeatedAt};

use crate::declarations::declare;
use crate::member_lists::member_lists;
use fidl_named::{DeclarationId, NameFault, Place};
use fidl_span::Span;
use fidl_tree::{Declaration, File};
use indexmap::IndexMap;
use std::alloc::Global;

/// The members of a list have different names.
fn check_names(
    alloc: Global,
    file: &File<'_>,
    file_index: usize,
    members: &[Span],
) -> Result<(), NameFault>
    ensures differ { OnOk result (NamesDiffer file.now.src.now members.now) }
    ensures fault_is_true { IfErr result (IsRepeatedAt
        (RepeatsName file.now.src.now members.now) file_index) }
{
    let mut names = IndexMap::new(alloc);
    for (index, span) in members.iter().enumerate() {
        let name = Vec::from_slice(alloc, file.text(*span))?;
        let id = DeclarationId {
            file: file_index,
            index,
        };
        let place = Place {
            file: file_index,
            span: *span,
        };
        declare(&mut names, name, id, place)?;
    }
    Ok(())
}

/// The members of each list have different names.
fn check_lists(
    alloc: Global,
    file: &File<'_>,
    file_index: usize,
    lists: &[Vec<Span>],
) -> Result<(), NameFault>
    ensures differ { OnOk result (AllByRecursion (NamesDiffer file.now.src.now) (held lists.now)) }
    ensures fault_is_true { IfErr result (IsRepeatedAt (RepeatsIn file.now.src.now (held lists.now))
        file_index) }
{
    for list in lists {
        check_names(alloc, file, file_index, list)?;
    }
    Ok(())
}

/// So have those of a declaration.
fn check_lists_of(
    alloc: Global,
    file: &File<'_>,
    file_index: usize,
    declaration: &Declaration,
) -> Result<(), NameFault>
    ensures differ { OnOk result (ListsDiffer file.now.src.now (declaration_view declaration.now)) }
    ensures fault_is_true { let lists = body_lists (declared_view declaration.now.body) in
        IfErr result (IsRepeatedAt (RepeatsIn file.now.src.now lists) file_index) }
{
    let lists = member_lists(alloc, &declaration.body)?;
    check_lists(alloc, file, file_index, &lists)
}

/// So have those of each declaration of a file.
pub(crate) fn check_members(
    alloc: Global,
    file: &File<'_>,
    file_index: usize,
) -> Result<(), NameFault>
    ensures differ { OnOk result (DistinctMembers (file_view file.now)) }
    ensures fault_is_true { IfErr result (IsRepeatedAt
        (RepeatsMember (file_view file.now)) file_index) }
{
    for declaration in &file.declarations {
        check_lists_of(alloc, file, file_index, declaration)?;
    }
    Ok(())
}
