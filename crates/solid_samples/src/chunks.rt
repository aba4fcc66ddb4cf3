// The chunks of a region of side 4, in the walk's order: two rows by four pixels of a layer, from the top layer down and
// in a layer upward. Those that are not wholly hidden when the region begins are listed for one sweep.
ghost use Rattle.std.specs.Prelude.{◌≡◌, true, ◌+◌, ◌≤◌, ◌<◌, length};
ghost use Rattle.rules.specs.Drawings.{size_limit};
ghost use Rattle.solid_samples.specs.Chunks.{chunk_count, chunk_y, chunk_z, columns_of, pair_of, HighChunk, Listed};
ghost use Rattle.solid_samples.specs.Samples.{ForHidden, ForList};

use lanes::splat;
use picture::grid::Grid;
use picture::heights::rows_high;
use walk::cell::{Cell, lesser};

// The first row of chunk m, and its layer.
pub fn chunk_y(parent: Cell, m: u32) -> u32
    requires { parent.y ≤ size_limit }
    ensures { result ≡ chunk_y parent m }
{
    parent.y + 2 * (m % 2)
}

pub fn chunk_z(parent: Cell, m: u32) -> u32
    requires { m < chunk_count parent }
    ensures { result ≡ chunk_z parent m }
{
    parent.zend - 1 - m / 2
}

// The columns of both rows of a chunk, from the samples of the x axis.
pub fn columns(xs: [i32; 8]) -> [i32; 8]
    ensures { result ≡ columns_of xs }
{
    [xs[0], xs[1], xs[2], xs[3], xs[0], xs[1], xs[2], xs[3]]
}

// Two rows, each for four pixels.
fn pair(rows: &[i32; 8], i: usize) -> [i32; 8]
    requires { i + 1 < 8 }
    ensures { result ≡ pair_of rows.now i }
{
    let a = rows[i];
    let b = rows[i + 1];
    [a, a, a, a, b, b, b, b]
}

// Whether every pixel of a chunk is at least as high as its layer would make it. Rows past the region's end have none.
fn chunk_hidden(grid: Grid, parent: Cell, y: u32, z: u32, picture: &[u16]) -> bool
    requires { ForHidden grid parent z picture.now }
    ensures { result ≡ true → HighChunk grid parent y z picture.now }
{
    if parent.yend <= y {
        return true;
    }
    let rows = (lesser(parent.yend, y + 2) - y) as usize;
    let from = (y * grid.width + parent.x) as usize;
    let wide = (parent.xend - parent.x) as usize;
    let top = (z + 1) as u16;
    rows_high(picture, rows, grid.width as usize, from, wide, top)
}

// Chunk m: hidden, or at the next place. How many places are taken then.
fn list_chunk(
    grid: Grid,
    parent: Cell,
    rows: &[i32; 8],
    layers: &[i32; 8],
    m: u32,
    n: usize,
    picture: &[u16],
    ys: &mut [[i32; 8]; 8],
    zs: &mut [[i32; 8]; 8],
    places: &mut [usize; 8],
) -> usize
    requires for_list { ForList grid parent rows.now layers.now picture.now }
    requires m_bound { (m < chunk_count parent) × Listed grid parent picture.now ys.old zs.old places.old m n }
    ensures { Listed grid parent picture.now ys.new zs.new places.new
        (m + 1) result }
{
    let y = chunk_y(parent, m);
    let z = chunk_z(parent, m);
    if chunk_hidden(grid, parent, y, z, picture) {
        places[m as usize] = 8;
        return n;
    }
    let lower = pair(rows, (y - parent.y) as usize);
    let layer = splat(layers[(z - parent.z) as usize]);
    ys[n] = lower;
    zs[n] = layer;
    places[m as usize] = n;
    n + 1
}

pub fn list_chunks(
    grid: Grid,
    parent: Cell,
    rows: &[i32; 8],
    layers: &[i32; 8],
    picture: &[u16],
    ys: &mut [[i32; 8]; 8],
    zs: &mut [[i32; 8]; 8],
    places: &mut [usize; 8],
) -> usize
    requires for_list { ForList grid parent rows.now layers.now picture.now }
    requires ys_len { (length ys.old ≡ 8) × (length zs.old ≡ 8) × (length places.old ≡ 8) }
    ensures { Listed grid parent picture.now ys.new zs.new places.new
        (chunk_count parent) result }
{
    let end = 2 * (parent.zend - parent.z);
    let mut n = 0;
    for m in 0..end {
        n = list_chunk(grid, parent, rows, layers, m, n, picture, ys, zs, places);
    }
    n
}
