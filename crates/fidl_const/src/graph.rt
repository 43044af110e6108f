//! The graph of what values depend on, over the numbers of declarations and members.
ghost use Rattle.std.specs.Prelude.{◌≡◌, ◌<◌, ◌++◌, length, IfOk, OnOk};
ghost use Rattle.fidl_tree.specs.Views.{value_view};
ghost use Rattle.fidl_named.specs.Scopes.{OfFile};
ghost use Rattle.fidl_consts.specs.Types.{own_path};
ghost use Rattle.fidl_cycles.specs.Cycles.{points_of};
ghost use Rattle.fidl_consts.specs.Dependencies.{TypeUses, BodyUses, Uses, value_uses, path_uses};
ghost use Rattle.fidl_consts.specs.Dependencies.{constraint_uses};
ghost use Rattle.fidl_const.specs.Columns.{AreNames, AreNumbered, AreRows, AreTargets, file_of};
ghost use Rattle.fidl_const.specs.Columns.{name_uses_view};

use crate::nodes::Numbers;
use fidl_consts::found::{declaration_at, member_at};
use fidl_consts::names::find;
use fidl_consts::node_number;
use fidl_consts::nodes::is_node;
use fidl_consts::scope::NamedFile;
use fidl_consts::types::{is_string_type, type_constraints, type_path};
use fidl_named::{Meaning, Named, Wanted, ordinary, value_paths};
use fidl_tree::{DeclarationBody, File, Path, TypeConstructor, Value};
use std::alloc::{AllocError, Global};

/// A name, and the kind that its place wants.
#[derive(Clone, Copy, Drop)]
pub(crate) struct NameUse<'f> {
    pub kind: Wanted,
    pub path: &'f Path,
}

/// Appends the names in a value.
fn push_value<'f>(
    uses: &mut Vec<NameUse<'f>>,
    alloc: Global,
    value: &'f Value,
) -> Result<(), AllocError>
    ensures { OnOk result (name_uses_view uses.new.items ≡ name_uses_view uses.old.items ++ value_uses
        (value_view value.now)) }
{
    let paths = value_paths(alloc, value)?;
    for path in &paths {
        uses.push(NameUse {
            kind: Wanted::Value,
            path: *path,
        })?;
    }
    Ok(())
}

/// A type's own name.
fn own_name<'f>(
    alloc: Global,
    constructor: &'f TypeConstructor,
) -> Result<Vec<NameUse<'f>>, AllocError>
    ensures { IfOk result (λ uses. name_uses_view uses.items ≡ path_uses (own_path constructor.now)) }
{
    let mut uses = Vec::new(alloc);
    if let Some(path) = type_path(constructor) {
        uses.push(NameUse {
            kind: Wanted::Type,
            path,
        })?;
    }
    Ok(uses)
}

/// Appends the names in a type's constraints.
fn push_constraints<'f>(
    uses: &mut Vec<NameUse<'f>>,
    alloc: Global,
    file: &File<'_>,
    constructor: &'f TypeConstructor,
) -> Result<(), AllocError>
    ensures { OnOk result (name_uses_view uses.new.items
        ≡ name_uses_view uses.old.items ++ constraint_uses file.now constructor.now) }
{
    let values = ordinary(alloc, file, type_constraints(constructor))?;
    for value in &values {
        push_value(uses, alloc, value)?;
    }
    Ok(())
}

/// The names that a type depends on: its own, and where it is a string's those in its bounds.
fn type_uses<'f>(
    alloc: Global,
    file: &NamedFile<'_, '_, '_>,
    constructor: &'f TypeConstructor,
) -> Result<Vec<NameUse<'f>>, AllocError>
    ensures { IfOk result (λ uses. AreNames
        (TypeUses file.now.named.now file.now.tree.now constructor.now) (name_uses_view uses.items)) }
{
    let mut uses = own_name(alloc, constructor)?;
    if is_string_type(file, constructor)? {
        push_constraints(&mut uses, alloc, file.tree, constructor)?;
    }
    Ok(uses)
}

/// The names that a declaration depends on.
fn body_uses<'f>(
    alloc: Global,
    file: &NamedFile<'_, '_, '_>,
    body: &'f DeclarationBody,
) -> Result<Vec<NameUse<'f>>, AllocError>
    ensures { IfOk result (λ uses. AreNames
        (BodyUses file.now.named.now file.now.tree.now body.now) (name_uses_view uses.items)) }
{
    match body {
        DeclarationBody::Const(constant) => {
            let mut uses = type_uses(alloc, file, &constant.constructor)?;
            push_value(&mut uses, alloc, &constant.value)?;
            Ok(uses)
        }
        DeclarationBody::Alias(alias) => type_uses(alloc, file, &alias.constructor),
        _ => Ok(Vec::new(alloc)),
    }
}

/// The number of the file of a declaration or a member.
fn file_number(meaning: Meaning) -> usize
    ensures { result ≡ file_of meaning }
{
    match meaning {
        Meaning::Declared(id) => id.file,
        Meaning::Member { of, .. } | Meaning::PropertyMember { of, .. } => of.file,
        Meaning::Predeclared(_) => 0,
    }
}

/// The names that a declaration or a member depends on.
fn node_uses<'f>(
    named: &Named<'f, '_>,
    alloc: Global,
    meaning: Meaning,
) -> Result<Vec<NameUse<'f>>, AllocError>
    ensures { IfOk result (λ found. OfFile named.now (file_of meaning)
        (λ f. AreNames (Uses named.now meaning f) (name_uses_view found.items))) }
{
    match meaning {
        Meaning::Declared(id) => match declaration_at(named, id) {
            None => Ok(Vec::new(alloc)),
            Some(found) => {
                let file = NamedFile {
                    named,
                    file_index: id.file,
                    tree: found.file,
                };
                body_uses(alloc, &file, &found.declaration.body)
            }
        },
        Meaning::Member { of, number } => match member_at(named, of, number) {
            None => Ok(Vec::new(alloc)),
            Some(found) => {
                let mut uses = Vec::new(alloc);
                push_value(&mut uses, alloc, &found.member.value)?;
                Ok(uses)
            }
        },
        Meaning::Predeclared(_) | Meaning::PropertyMember { .. } => Ok(Vec::new(alloc)),
    }
}

/// The numbers of the declarations and members that names of a file mean.
fn targets(
    named: &Named<'_, '_>,
    alloc: Global,
    numbers: &Numbers,
    file_index: usize,
    uses: &[NameUse<'_>],
) -> Result<Vec<usize>, AllocError>
    requires numbered { AreNumbered named.now numbers.now.nodes.items numbers.now.starts.items }
    requires within { file_index < length named.now }
    ensures { IfOk result (λ row. OfFile named.now file_index
        (λ f. AreTargets named.now f numbers.now.starts.items (name_uses_view uses.now) row.items)) }
{
    let mut row = Vec::new(alloc);
    for name in uses {
        if let Some(meaning) = find(named, file_index, name.path, name.kind)? {
            if is_node(named, meaning) {
                row.push(node_number(&numbers.starts, meaning))?;
            }
        }
    }
    Ok(row)
}

/// The graph of what depends on what.
pub(crate) fn value_graph(
    named: &Named<'_, '_>,
    alloc: Global,
    numbers: &Numbers,
) -> Result<Vec<Vec<usize>>, AllocError>
    requires { AreNumbered named.now numbers.now.nodes.items numbers.now.starts.items }
    ensures { IfOk result (λ graph. AreRows named.now numbers.now.nodes.items
        numbers.now.starts.items (points_of graph.items)) }
{
    let mut graph = Vec::new(alloc);
    for meaning in &numbers.nodes {
        let uses = node_uses(named, alloc, *meaning)?;
        let row = targets(named, alloc, numbers, file_number(*meaning), &uses)?;
        graph.push(row)?;
    }
    Ok(graph)
}
