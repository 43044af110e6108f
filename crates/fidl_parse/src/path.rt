// Names with dots between them.
ghost use Rattle.std.specs.Prelude.{IfOk, map};
ghost use Rattle.fidl_tree.specs.Leaf.{joined};
ghost use Rattle.fidl_tree.specs.Path.{path_leaves, part_leaves};
ghost use Rattle.fidl_parse.specs.Reading.{Reads};
ghost use Rattle.fidl_parse.specs.Completeness.{Finds, row};
ghost use Rattle.fidl_parse.specs.FollowSets.{Anything, Not, extends_path};

use crate::fault::Stop;
use crate::parser::Parser;
use fidl_span::WordKind;
use fidl_tree::{Path, PathPart};

impl<'w, 's> Parser<'w, 's> {
    pub(crate) fn path(&self, at: &mut usize) -> Result<Path, Stop>
        ensures reads { IfOk result (λ path. Reads self.now at.old at.new (path_leaves path)) }
        ensures complete { Finds self.now at.old at.new path_leaves (Not extends_path) result }
    {
        let first = self.name(at)?;
        let rest = self.path_parts(at)?;
        Ok(Path { first, rest })
    }

    /// What stands behind the first name of a path.
    pub(crate) fn path_parts(&self, at: &mut usize) -> Result<Vec<PathPart>, Stop>
        ensures reads { IfOk result (λ parts. Reads self.now at.old at.new
            (joined (map part_leaves parts.items))) }
        ensures complete { Finds self.now at.old at.new (row part_leaves)
            (Not extends_path) result }
    {
        let mut parts = Vec::new(self.alloc);
        while self.is_next(*at, WordKind::Dot) {
            parts.push(self.path_part(at)?)?;
        }
        Ok(parts)
    }

    fn path_part(&self, at: &mut usize) -> Result<PathPart, Stop>
        ensures reads { IfOk result (λ part. Reads self.now at.old at.new (part_leaves part)) }
        ensures complete { Finds self.now at.old at.new part_leaves Anything result }
    {
        let dot = self.symbol(at, WordKind::Dot)?;
        let name = self.name(at)?;
        Ok(PathPart { dot, name })
    }
}
