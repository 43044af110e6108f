//! The replies of a method.
ghost use Rattle.std.specs.Prelude.{◌≡◌, ◌<◌, not};
ghost use Rattle.fidl_table_format.specs.Method.{is_strict};
ghost use Rattle.fidl_verify.specs.Lookups.{method_record};

use fidl_encode::Message;
use fidl_verify::Method;
use std::marker::Model;

/// The replies of a two-way method, of which there is one at least.
#[derive(Drop)]
pub struct Replies {
    ordinal: u64,
    flexible: bool,
    bodies: Vec<Message>,
}

impl Model for Replies {
    ghost use Rattle.std.specs.Prelude.{◌<◌, length};
    ghost use Rattle.fidl_script.specs.Script.{Replies as Data};
    ghost use Rattle.fidl_script.specs.Held.{bodies_view, replies_of};

    ghost Value = { Data };

    ghost view = { λ r. replies_of r.ordinal r.flexible (bodies_view r.bodies.items) };

    ghost invariant = { λ r. 0 < length r.bodies.items };
}

impl Replies {
    ghost use Rattle.std.specs.Prelude.{◌≡◌, ◌<◌, length};
    ghost use Rattle.fidl_script.specs.Script.{bodies_of};
    ghost use Rattle.fidl_script.specs.Held.{bodies_view, replies_of};

    /// The replies of this method.
    pub(crate) fn new(method: &Method<'_>, bodies: Vec<Message>) -> Replies
        requires { 0 < length bodies.items }
        ensures { result ≡ replies_of (method_record method.now).ordinal
            (not (is_strict (method_record method.now))) (bodies_view bodies.items) }
    {
        Replies {
            ordinal: method.ordinal(),
            flexible: !method.strict(),
            bodies,
        }
    }

    /// The ordinal of the method.
    pub fn ordinal(&self) -> u64
        ensures { result ≡ self.now.ordinal }
    {
        self.ordinal
    }

    /// Whether the method is flexible.
    pub fn flexible(&self) -> bool
        ensures { result ≡ self.now.flexible }
    {
        self.flexible
    }

    /// The bodies of its replies, without headers, in the order of the script's lines.
    pub fn bodies(&self) -> &[Message]
        ensures bodies { bodies_view result.now ≡ bodies_of self.now }
        ensures some { 0 < length result.now }
    {
        &self.bodies
    }
}
