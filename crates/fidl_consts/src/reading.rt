//! What is asked of the values of a set of files.
ghost use Rattle.std.specs.Prelude.{◌<◌, length, IfErr, IfOk, IfSome, IsNone};
ghost use Rattle.fidl_tree.specs.Views.{value_view};
ghost use Rattle.fidl_consts.specs.PlainValues.{seen};
ghost use Rattle.fidl_consts.specs.Values.{HasValue, ValueIs};
ghost use Rattle.fidl_consts.specs.Refusals.{ValueFails};
ghost use Rattle.fidl_consts.specs.Tables.{AreConsts, IsMemoryOr, HasEntry};
ghost use Rattle.fidl_named.specs.Scopes.{OfFile};

use crate::const_type::ConstType;
use crate::const_value::ConstValue;
use crate::consts::{Consts, Entry};
use crate::fault::ConstFault;
use crate::scope::{FileScope, NamedFile, Scope};
use crate::values::{value_in, value_of};
use fidl_named::{Meaning, Named};
use fidl_tree::Value;
use std::alloc::{AllocError, Global};

impl Consts {
    /// The value that a meaning has of its own, with its type: a constant's, a member's of declared
    /// bits or of a declared enum, and the greatest bound's. `named` are the files that these are
    /// the values of.
    pub fn value_of(
        &self,
        alloc: Global,
        named: &Named<'_, '_>,
        meaning: Meaning,
    ) -> Result<Option<Entry>, AllocError>
        requires { AreConsts named.now self.now }
        ensures found { IfOk result (λ found. IfSome found (HasEntry named.now meaning)) }
        ensures none { IfOk result (λ found. IsNone found → HasValue named.now meaning → ⊥) }
    {
        let scope = Scope {
            alloc,
            named,
            consts: self,
        };
        value_of(&scope, meaning)
    }

    /// The value of an expression in the file of this number, where a value of this type is wanted.
    /// The refusals are those of `evaluate`. `named` are the files that these are the values of.
    pub fn value_of_expression(
        &self,
        alloc: Global,
        named: &Named<'_, '_>,
        file_index: usize,
        wanted: ConstType,
        value: &Value,
    ) -> Result<ConstValue, ConstFault>
        requires within { file_index < length named.now }
        requires known { AreConsts named.now self.now }
        ensures ok { IfOk result (λ v. OfFile named.now file_index
            (λ f. ValueIs named.now f wanted (value_view value.now) (seen v))) }
        ensures fault_is_true { IfErr result (IsMemoryOr (λ fault. OfFile named.now file_index
            (λ f. ValueFails named.now f file_index wanted fault (value_view value.now)))) }
    {
        let file = NamedFile {
            named,
            file_index,
            tree: named.file(file_index),
        };
        let scope = FileScope {
            alloc,
            consts: self,
            file,
        };
        value_in(&scope, wanted, value)
    }
}
