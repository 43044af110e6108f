//! The syntax tree of a FIDL source file, over spans of the source.
//!
//! The tree is lossless: it keeps the span of each word that it was read from, so that its yield is
//! the list of those words. The grammar is that of the FIDL language specification, as
//! `docs/language.md` states it.
#![tactic(auto)]

mod attribute;
mod constraint;
mod declaration;
mod file;
mod keyword;
mod laws;
mod path;
mod production;
mod protocol;
mod type_constructor;
mod value;
mod value_member;
pub mod worked;

pub use attribute::{Argument, ArgumentList, ArgumentName, Arguments, Attribute, NextArgument};
pub use constraint::{Constraints, NextConstraint};
pub use declaration::{
    AliasDeclaration, ConstDeclaration, Declaration, DeclarationBody, Properties, Property,
    ProtocolDeclaration, ResourceDefinition, ServiceDeclaration, TypeDeclaration,
};
pub use file::{File, Import, ImportAlias, Library, yield_tokens};
pub use keyword::{Openness, Resource, Strictness, UnionModifiers, ValuesKeyword};
pub use laws::{bracket_limit_is_sixty_four, file_views_keep_all};
pub use path::{Path, PathPart};
pub use protocol::{
    Compose, ErrorType, Event, Method, Payload, ProtocolMember, ProtocolMemberBody, Response,
};
pub use type_constructor::{
    Layout, LayoutBody, Member, NamedType, NextTypeArgument, OrdinalBody, OrdinalMember,
    StructLayout, TableLayout, TypeArgument, TypeArguments, TypeConstructor, Underlying,
    UnionLayout, ValuesLayout,
};
pub use value::{Operand, OrOperand, Value};
pub use value_member::ValueMember;
