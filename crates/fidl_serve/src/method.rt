//! Finding the replies of a method by its ordinal.
ghost use Rattle.std.specs.Prelude.{◌≡◌, ◌<◌};
ghost use Rattle.std.specs.List.{AllPairs};
ghost use Rattle.fidl_script.specs.Script.{Replies as Data};
ghost use Rattle.fidl_serve.specs.Cursors.{IsMethodPlace, HasMethodOf};

use fidl_script::Replies;

/// The place of the method of this ordinal, of which there is one. Each look halves what is left.
pub(crate) fn method_place(methods: &[Replies], ordinal: u64) -> usize
    requires rise { AllPairs (λ (r q : Data). r.ordinal < q.ordinal) methods.now }
    requires known { HasMethodOf ordinal methods.now }
    ensures { IsMethodPlace ordinal methods.now result }
{
    let mut low = 0;
    let mut high = methods.len();
    while low < high {
        let middle = low + (high - low) / 2;
        let here = methods[middle].ordinal();
        if here < ordinal {
            low = middle + 1;
        } else if ordinal < here {
            high = middle;
        } else {
            return middle;
        }
    }
    unreachable!()
}
