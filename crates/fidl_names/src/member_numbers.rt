//! The numbers of members and of properties, by their names, for a file that is added.
ghost use Rattle.std.specs.Prelude.{◌≡◌, ◌++◌, ◌∷◌, [], ℕ, List, length, IfOk, OnOk};
ghost use Rattle.fidl_named.specs.Meanings.{layout_members as members_of};
ghost use Rattle.fidl_named.specs.Constraints.{property_names, texts_of};
ghost use Rattle.fidl_named.specs.Constraints.{declared_members as declared};
ghost use Rattle.fidl_named.specs.Constraints.{written_members as written};
ghost use Rattle.fidl_named.specs.MemberNumbers.{AreNumbers, AreNumbersOf, AreNumbersIn, Match};
ghost use Rattle.fidl_named.specs.MemberNumbers.{own_properties as properties_of, written_names};
ghost use Rattle.fidl_named.specs.NameMaps.{seen};

use fidl_named::MemberNumbers;
use fidl_tree::{
    Declaration, DeclarationBody, File, LayoutBody, Property, TypeConstructor, ValueMember,
};
use indexmap::IndexMap;
use std::alloc::{AllocError, Global};

/// The members of a layout of bits or an enum.
fn layout_members(body: &LayoutBody) -> &[ValueMember]
    ensures { result.now ≡ members_of body.now }
{
    match body {
        LayoutBody::Values(layout) => &layout.members,
        LayoutBody::Struct(_) | LayoutBody::Table(_) | LayoutBody::Union(_) => &[],
    }
}

/// The members of bits or an enum that a type is written as.
fn written_members(constructor: &TypeConstructor) -> &[ValueMember]
    ensures { result.now ≡ written constructor.now }
{
    match constructor {
        TypeConstructor::Layout { layout, .. } => layout_members(&layout.body),
        TypeConstructor::Named(_) => &[],
    }
}

/// The members of declared bits or a declared enum, or of those that an alias resolves to.
fn declared_members(body: &DeclarationBody) -> &[ValueMember]
    ensures { result.now ≡ declared body.now }
{
    match body {
        DeclarationBody::Type(declaration) => layout_members(&declaration.layout.body),
        DeclarationBody::Alias(declaration) => written_members(&declaration.constructor),
        _ => &[],
    }
}

/// The properties of a resource definition.
fn own_properties(body: &DeclarationBody) -> &[Property]
    ensures { result.now ≡ properties_of body.now }
{
    match body {
        DeclarationBody::Resource(definition) => &definition.properties.members,
        _ => &[],
    }
}

/// Adds the name after these, where it isn't there yet.
fn add_name(
    numbers: &mut IndexMap<Vec<u8>, usize>,
    name: Vec<u8>,
    number: usize,
) -> Result<(), AllocError>
    ensures { OnOk result ((names : List (List ℕ)) → length names ≡ number
        → AreNumbers names (seen numbers.old.entries)
        → AreNumbers (names ++ name.items ∷ []) (seen numbers.new.entries)) }
{
    if numbers.contains_key(&name) {
        return Ok(());
    }
    numbers.insert(name, number)?;
    Ok(())
}

/// The numbers of members.
fn number_members(
    alloc: Global,
    file: &File<'_>,
    members: &[ValueMember],
) -> Result<IndexMap<Vec<u8>, usize>, AllocError>
    ensures { IfOk result (λ m. AreNumbers (texts_of file.now members.now) (seen m.entries)) }
{
    let mut numbers = IndexMap::new(alloc);
    for (number, member) in members.iter().enumerate() {
        let name = Vec::from_slice(alloc, file.text(member.name))?;
        add_name(&mut numbers, name, number)?;
    }
    Ok(numbers)
}

/// The numbers of properties.
fn number_properties(
    alloc: Global,
    file: &File<'_>,
    properties: &[Property],
) -> Result<IndexMap<Vec<u8>, usize>, AllocError>
    ensures { IfOk result (λ m. AreNumbers (property_names file.now properties.now)
        (seen m.entries)) }
{
    let mut numbers = IndexMap::new(alloc);
    for (number, property) in properties.iter().enumerate() {
        let name = Vec::from_slice(alloc, file.text(property.name))?;
        add_name(&mut numbers, name, number)?;
    }
    Ok(numbers)
}

/// The numbers of the members with which the types of properties are written.
fn number_written(
    alloc: Global,
    file: &File<'_>,
    properties: &[Property],
) -> Result<Vec<IndexMap<Vec<u8>, usize>>, AllocError>
    ensures { IfOk result (λ all. Match (λ p m. AreNumbers (written_names file.now p)
        (seen m.entries)) properties.now all.items) }
{
    let mut all = Vec::new(alloc);
    for property in properties {
        let numbers = number_members(alloc, file, written_members(&property.constructor))?;
        all.push(numbers)?;
    }
    Ok(all)
}

/// The numbers of a declaration's lists.
fn number_lists(
    alloc: Global,
    file: &File<'_>,
    declaration: &Declaration,
) -> Result<MemberNumbers, AllocError>
    ensures { IfOk result (AreNumbersOf file.now declaration.now) }
{
    let members = number_members(alloc, file, declared_members(&declaration.body))?;
    let own = own_properties(&declaration.body);
    let properties = number_properties(alloc, file, own)?;
    let written = number_written(alloc, file, own)?;
    Ok(MemberNumbers {
        members,
        properties,
        written,
    })
}

/// Those of each declaration of a file.
pub(crate) fn number_file(alloc: Global, file: &File<'_>) -> Result<Vec<MemberNumbers>, AllocError>
    ensures { IfOk result (λ numbers. AreNumbersIn file.now numbers.items) }
{
    let mut all = Vec::new(alloc);
    for declaration in &file.declarations {
        let numbers = number_lists(alloc, file, declaration)?;
        all.push(numbers)?;
    }
    Ok(all)
}
