//! The points of a graph that a point reaches.
ghost use Rattle.std.specs.Prelude.{◌<◌, length, IfOk, OnOk};
ghost use Rattle.fidl_cycles.specs.Cycles.{EdgesWithin, points_of};
ghost use Rattle.fidl_composition.specs.Points.{GrowsBy, GrowsAt, AreReached};

use indexmap::IndexSet;
use std::alloc::{AllocError, Global};

/// Adds each of these points that is new.
fn add_all(points: &mut IndexSet<usize>, targets: &[usize]) -> Result<(), AllocError>
    ensures { OnOk result (GrowsBy points.old.keys points.new.keys targets.now) }
{
    for target in targets {
        points.insert(*target)?;
    }
    Ok(())
}

/// Adds each point that a point leads to and that is new.
fn add_targets(
    points: &mut IndexSet<usize>,
    graph: &[Vec<usize>],
    point: usize,
) -> Result<(), AllocError>
    requires { point < length graph.now }
    ensures { OnOk result (GrowsAt (points_of graph.now) point points.old.keys points.new.keys) }
{
    add_all(points, &graph[point])?;
    Ok(())
}

/// The points that a point reaches: itself first, then what each point of the set leads to, in
/// order.
fn reached_set(
    alloc: Global,
    graph: &[Vec<usize>],
    root: usize,
) -> Result<IndexSet<usize>, AllocError>
    requires edges { EdgesWithin graph.now }
    requires within { root < length graph.now }
    ensures { IfOk result (λ points. AreReached (points_of graph.now) root points.keys) }
{
    let mut points = IndexSet::new(alloc);
    points.insert(root)?;
    for place in 0..graph.len() {
        let Some(point) = points.get_index(place).copied() else {
            return Ok(points);
        };
        add_targets(&mut points, graph, point)?;
    }
    Ok(points)
}

/// The points that a point reaches, each once: itself first, then what each point of the list leads
/// to, in order.
pub(crate) fn reached_points(
    alloc: Global,
    graph: &[Vec<usize>],
    root: usize,
) -> Result<Vec<usize>, AllocError>
    requires edges { EdgesWithin graph.now }
    requires within { root < length graph.now }
    ensures { IfOk result (λ points. AreReached (points_of graph.now) root points.items) }
{
    let reached = reached_set(alloc, graph, root)?;
    let mut points = Vec::new(alloc);
    points.extend_from_slice(reached.as_slice())?;
    Ok(points)
}
