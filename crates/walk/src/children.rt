// Child number m of a region: greatest z first, then rows, then columns; those beyond the grid do not exist.
ghost use Rattle.std.specs.Prelude.{◌≡◌, ◌/◌, ◌%◌, ◌<◌, length};
ghost use Rattle.walk.specs.Children.{ForParts, parts_in, Parent, children_in, ForChild, ChildOf};

use crate::cell::{Cell, lesser};

// How many parts of a side begin before the end of an axis.
fn parts(from: u32, end: u32, side: u32) -> u32
    requires { ForParts from end side }
    ensures { result ≡ parts_in from end side }
{
    (end - from + side - 1) / side
}

pub fn child_count(parent: Cell, side: u32) -> u32
    requires { Parent parent side }
    ensures { result ≡ length (children_in parent side) }
{
    let across = parts(parent.x, parent.xend, side);
    let rows = parts(parent.y, parent.yend, side);
    let layers = parts(parent.z, parent.zend, side);
    layers * (rows * across)
}

// A number over the parts of an axis, and what is left of it. A region that the grid's edge does not cut has eight or
// four parts: then no division is made. One takes longer than all else here.
fn over(m: u32, n: u32) -> (u32, u32)
    requires { 0 < n }
    ensures { (result.0 ≡ m / n) × (result.1 ≡ m % n) }
{
    match n {
        8 => (m / 8, m % 8),
        4 => (m / 4, m % 4),
        _ => (m / n, m % n),
    }
}

pub fn child(parent: Cell, side: u32, m: u32) -> Cell
    requires { ForChild parent side m }
    ensures { ChildOf parent side m result }
{
    let across = parts(parent.x, parent.xend, side);
    let rows = parts(parent.y, parent.yend, side);
    let layers = parts(parent.z, parent.zend, side);
    let (before, column) = over(m, across);
    let (above, row) = over(before, rows);
    let x = parent.x + column * side;
    let y = parent.y + row * side;
    let z = parent.z + (layers - 1 - above) * side;
    Cell {
        x,
        xend: lesser(parent.xend, x + side),
        y,
        yend: lesser(parent.yend, y + side),
        z,
        zend: lesser(parent.zend, z + side),
        side,
    }
}
