//! A flood of the cells that are on, from the top row.
ghost use Rattle.std.specs.Prelude.{◌≡◌, ℕ, ◌+◌, ◌*◌, ◌<◌, ◌≤◌, ◌↔◌, length, IsTrue, IsFalse};
ghost use Rattle.lattice_grid.specs.Path.{JoinedBy, CutBy};
ghost use Rattle.lattice_grid.specs.Rectangle.{IsSize};
ghost use Rattle.path_meaning.specs.Stamps.{visited, visited_near, spread, left_of, HasRoom};
ghost use Rattle.path_meaning.specs.Flood.{IsFlood, NoCell, TopIsMarked};

use crate::cells::Cells;
use crate::laws::crossing;
use crate::stamps::Marked;
use lattice_grid::neighbours::near;
use lattice_grid::shape::Place;

/// Marks a cell that is on and not marked, and lets it wait.
fn visit<C: Cells>(marked: &mut Marked, cells: &C, p: Place)
    requires row { p.row < (C.size cells.now).rows }
    requires col { p.col < (C.size cells.now).cols }
    requires room { HasRoom (C.size cells.now) marked.old }
    ensures visited { marked.new ≡ visited (C.size cells.now) (C.on cells.now) p marked.old }
    ensures room { HasRoom (C.size cells.now) marked.new }
    ensures left { left_of marked.new ≡ left_of marked.old }
    ensures cells { length marked.new.stamps ≡ length marked.old.stamps }
{
    let index = (p.row * cells.shape().cols() + p.col) as usize;
    if !marked.is_marked(index) && cells.is_on(p) {
        marked.push(index, p);
    }
}

/// The same for a cell so many rows below and columns right of the one up left of p, where it is inside.
fn visit_near<C: Cells>(marked: &mut Marked, cells: &C, p: Place, down: u32, right: u32)
    requires row { p.row < (C.size cells.now).rows }
    requires col { p.col < (C.size cells.now).cols }
    requires down { down ≤ 2 }
    requires right { right ≤ 2 }
    requires room { HasRoom (C.size cells.now) marked.old }
    ensures visited { marked.new ≡ visited_near (C.size cells.now) (C.on cells.now) p down right marked.old }
    ensures room { HasRoom (C.size cells.now) marked.new }
    ensures left { left_of marked.new ≡ left_of marked.old }
    ensures cells { length marked.new.stamps ≡ length marked.old.stamps }
{
    if let Some(q) = near(cells.shape(), p, down, right) {
        visit(marked, cells, q);
    }
}

/// Visits the four-neighbours of a cell; the one below is the first to be looked at.
#[tactic(auto, unfolding(crate::specs::Stamps::spread))]
fn visit_around<C: Cells>(marked: &mut Marked, cells: &C, p: Place)
    requires row { p.row < (C.size cells.now).rows }
    requires col { p.col < (C.size cells.now).cols }
    requires room { HasRoom (C.size cells.now) marked.old }
    ensures spread { marked.new ≡ spread (C.size cells.now) (C.on cells.now) p marked.old }
    ensures left { left_of marked.new ≡ left_of marked.old }
    ensures cells { length marked.new.stamps ≡ length marked.old.stamps }
{
    visit_near(marked, cells, p, 0, 1);
    visit_near(marked, cells, p, 1, 0);
    visit_near(marked, cells, p, 1, 2);
    visit_near(marked, cells, p, 2, 1);
}

/// Visits the cells of the top row.
fn visit_top<C: Cells>(marked: &mut Marked, cells: &C)
    requires { IsFlood (C.size cells.now) (C.on cells.now) NoCell marked.old }
    ensures flood { IsFlood (C.size cells.now) (C.on cells.now) NoCell marked.new }
    ensures top { TopIsMarked (C.size cells.now) (C.on cells.now) (C.size cells.now).cols marked.new }
    ensures cells { length marked.new.stamps ≡ length marked.old.stamps }
    ensures size { IsSize (C.size cells.now) }
{
    for col in 0..cells.shape().cols() {
        visit(marked, cells, Place { row: 0, col });
    }
}

/// Looks at the cells that wait until none does or one is in the bottom row.
fn reaches_bottom<C: Cells>(marked: &mut Marked, cells: &C) -> bool
    requires flood { IsFlood (C.size cells.now) (C.on cells.now) NoCell marked.old }
    requires top { TopIsMarked (C.size cells.now) (C.on cells.now) (C.size cells.now).cols marked.old }
    ensures joined { IsTrue result ↔ JoinedBy (C.size cells.now) (C.on cells.now) }
    ensures cells { length marked.new.stamps ≡ length marked.old.stamps }
{
    let rows = cells.shape().rows();
    while let Some(p) = marked.pop() {
        if p.row + 1 == rows {
            return true;
        }
        visit_around(marked, cells, p);
    }
    false
}

/// Whether a path of on-cells leads from the top row to the bottom row; otherwise a cut stands.
pub(crate) fn is_joined<C: Cells>(marked: &mut Marked, cells: &C) -> bool
    requires { (C.size cells.now).rows * (C.size cells.now).cols ≤ length marked.old.stamps }
    ensures joined { IsTrue result ↔ JoinedBy (C.size cells.now) (C.on cells.now) }
    ensures not_cut { IsTrue result ↔ (CutBy (C.size cells.now) (C.on cells.now) → ⊥) }
    ensures cut { IsFalse result ↔ CutBy (C.size cells.now) (C.on cells.now) }
    ensures not_joined { IsFalse result ↔ (JoinedBy (C.size cells.now) (C.on cells.now) → ⊥) }
    ensures cells { length marked.new.stamps ≡ length marked.old.stamps }
{
    crossing();
    marked.begin();
    visit_top(marked, cells);
    reaches_bottom(marked, cells)
}
