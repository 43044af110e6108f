//! Cycles in a graph whose points are numbered.
ghost use Rattle.std.specs.Prelude.{◌≡◌, ◌<◌, ◌≤◌, ◌↔◌, ◌⊎◌, ℕ, List, false, length, slice_index};
ghost use Rattle.std.specs.Prelude.{slice_index_or, IfOk, IfErr, IsOk, OnOk, IfSome, IsNone};
ghost use Rattle.std.specs.List.{Contains};
ghost use Rattle.fidl_cycles.specs.Cycles.{EdgesWithin, Leads, IsEdge, IsFirstEdge, IsOrder};
ghost use Rattle.fidl_cycles.specs.Cycles.{IsMarked, HasNoCycle, IsOrdered, IsPoint, IsTrail};
ghost use Rattle.fidl_cycles.specs.Cycles.{points_of};
ghost use Rattle.fidl_cycles.specs.Cycles.{trail_of};

use std::alloc::{AllocError, Global};

/// A point of a way, and how many of its targets are finished.
#[derive(Clone, Copy, Drop)]
struct Frame {
    point: usize,
    next: usize,
}

/// An edge of a cycle.
#[derive(Clone, Copy, Drop)]
pub struct CycleEdge {
    pub from: usize,
    pub to: usize,
}

/// The first of the targets that isn't finished.
fn first_open(targets: &[usize], from: usize, done: &[bool]) -> Option<usize>
    requires within { (t : ℕ) → Contains targets.now t → t < length done.now }
    requires passed { (k : ℕ) → k < from → IsMarked done.now (slice_index targets.now k) }
    ensures inside { IfSome result (λ i. i < length targets.now) }
    ensures open { IfSome result (λ i. slice_index_or done.now (slice_index targets.now i) false
        ≡ false) }
    ensures passed { IfSome result (λ i. (k : ℕ) → k < i
        → IsMarked done.now (slice_index targets.now k)) }
    ensures none { IsNone result → (k : ℕ) → k < length targets.now
        → IsMarked done.now (slice_index targets.now k) }
{
    for i in from..targets.len() {
        if !done[targets[i]] {
            return Some(i);
        }
    }
    None
}

/// The edge that leaves the lesser point; of two from one point the first.
fn earlier(one: CycleEdge, other: CycleEdge) -> CycleEdge
    ensures { ((result ≡ one) × (one.from ≤ other.from))
        ⊎ ((result ≡ other) × (other.from ≤ one.from)) }
{
    if other.from < one.from { other } else { one }
}

/// The edge that leaves the first point of a cycle: a way from the target to a point, and from
/// there back.
fn first_edge(path: &[Frame], point: usize, target: usize) -> CycleEdge
    requires { IsPoint (trail_of path.now point) target }
    ensures { (graph : List (List ℕ)) → IsTrail graph (trail_of path.now point)
        → IsEdge graph point target → IsFirstEdge graph result.from result.to }
{
    let mut first = CycleEdge {
        from: point,
        to: target,
    };
    let mut next = point;
    let mut index = path.len();
    while next != target {
        index -= 1;
        let before = path[index].point;
        let edge = CycleEdge {
            from: before,
            to: next,
        };
        first = earlier(first, edge);
        next = before;
    }
    first
}

/// Goes all ways from a point that lead to points not finished. Finds a cycle's first edge, or
/// finishes all that it met, each after its targets.
fn search_from(
    graph: &[Vec<usize>],
    alloc: Global,
    seen: &mut [bool],
    done: &mut [bool],
    order: &mut Vec<usize>,
    root: usize,
) -> Result<Option<CycleEdge>, AllocError>
    requires edges { EdgesWithin graph.now }
    requires all_seen { length seen.old ≡ length graph.now }
    requires all_done { length done.old ≡ length graph.now }
    requires within { root < length graph.now }
    requires sound { HasNoCycle (points_of graph.now) done.old }
    requires settled { (t : ℕ) → IsMarked seen.old t → IsMarked done.old t }
    requires ordered { IsOrdered (points_of graph.now) done.old order.old.items }
    ensures cycle { IfOk result (λ found. IfSome found
        (λ e. IsFirstEdge (points_of graph.now) e.from e.to)) }
    ensures ordered { IfOk result (λ found. IsNone found
        → IsOrdered (points_of graph.now) done.new order.new.items) }
    ensures sound { IfOk result (λ found. IsNone found
        → HasNoCycle (points_of graph.now) done.new) }
    ensures settled { IfOk result (λ found. IsNone found → (t : ℕ) → IsMarked seen.new t
        → IsMarked done.new t) }
    ensures kept { IfOk result (λ found. IsNone found → (t : ℕ) → IsMarked done.old t
        → IsMarked done.new t) }
    ensures finished { IfOk result (λ found. IsNone found → IsMarked done.new root) }
{
    let mut path: Vec<Frame> = Vec::new(alloc);
    let mut point = root;
    let mut next = 0;
    seen[root] = true;
    loop {
        match first_open(&graph[point], next, done) {
            None => {
                done[point] = true;
                order.push(point)?;
                match path.pop() {
                    None => return Ok(None),
                    Some(frame) => {
                        point = frame.point;
                        next = frame.next;
                    }
                }
            }
            Some(i) => {
                let target = graph[point][i];
                if seen[target] {
                    return Ok(Some(first_edge(&path, point, target)));
                }
                seen[target] = true;
                path.push(Frame { point, next: i })?;
                point = target;
                next = 0;
            }
        }
    }
}

/// A graph of as many points, without edges.
pub fn no_edges(alloc: Global, count: usize) -> Result<Vec<Vec<usize>>, AllocError>
    ensures long { IfOk result (λ graph. length graph.items ≡ count) }
    ensures none { IfOk result (λ graph. (one other : ℕ) → IsEdge (points_of graph.items) one other
        → ⊥) }
{
    let mut graph = Vec::new(alloc);
    for _point in 0..count {
        graph.push(Vec::new(alloc))?;
    }
    Ok(graph)
}

/// Adds an edge.
pub fn add_edge(graph: &mut [Vec<usize>], from: usize, to: usize) -> Result<(), AllocError>
    requires { from < length graph.old }
    ensures { OnOk result ((one other : ℕ) → IsEdge (points_of graph.new) one other
        ↔ (IsEdge (points_of graph.old) one other ⊎ ((one ≡ from) × (other ≡ to)))) }
{
    graph[from].push(to)?;
    Ok(())
}

/// An order of all points, each after those that it leads to, or a cycle's first edge.
pub fn find_cycle(
    graph: &[Vec<usize>],
    alloc: Global,
) -> Result<Result<Vec<usize>, CycleEdge>, AllocError>
    requires { EdgesWithin graph.now }
    ensures cycle { IfOk result (λ found. IfErr found
        (λ e. IsFirstEdge (points_of graph.now) e.from e.to)) }
    ensures order { IfOk result (λ found. IfOk found
        (λ order. IsOrder (points_of graph.now) order.items)) }
    ensures none { IfOk result (λ found. IsOk found → (t : ℕ)
        → Leads (IsEdge (points_of graph.now)) t t → ⊥) }
{
    let mut seen = vec![in alloc; false; graph.len()]?;
    let mut done = vec![in alloc; false; graph.len()]?;
    let mut order = Vec::new(alloc);
    for root in 0..graph.len() {
        if let Some(cycle_edge) = search_from(
            graph, alloc, &mut seen, &mut done, &mut order, root,
        )? {
            return Ok(Err(cycle_edge));
        }
    }
    Ok(Ok(order))
}
