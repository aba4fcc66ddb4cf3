// A block of pixels, and the least window of layers that its heights lie in.
ghost use Rattle.std.specs.Prelude.{◌≡◌};
ghost use Rattle.slope_pixels.specs.Shades.{block_of, row_of, Spans, Joined, Tight};
ghost use Rattle.slope_pixels.specs.Asked.{ForSeenRow, ForSeen};

use picture::grid::Grid;
use walk::cell::Cell;

// First index and past the last one on both axes.
#[derive(Clone, Copy)]
pub struct Block {
    pub x: u32,
    pub xend: u32,
    pub y: u32,
    pub yend: u32,
}

// The pixels of a region.
impl From<Cell> for Block {
    ghost from_gives = { λ c b. b ≡ block_of c };

    fn from(c: Cell) -> Block {
        Block {
            x: c.x,
            xend: c.xend,
            y: c.y,
            yend: c.yend,
        }
    }
}

// Heights above `from` and up to `end`: the visible samples of their pixels have the z indices from the first number
// and below the second.
#[derive(Clone, Copy)]
pub struct Layers {
    pub from: u32,
    pub end: u32,
}

// The window `known`, wider by one height, if that lies in the window `all`.
fn join(known: Layers, height: u16, all: Layers) -> Layers
    ensures { Joined height all known result }
{
    let v = height as u32;
    if v <= all.from || all.end < v {
        return known;
    }
    Layers {
        from: known.from.min(v - 1),
        end: known.end.max(v),
    }
}

fn seen_row(picture: &[u16], grid: Grid, block: Block, y: u32, all: Layers, known: Layers) -> Layers
    requires { ForSeenRow grid picture.now block y }
    ensures { Spans grid picture.now (row_of block y) all known result }
{
    let mut seen = known;
    for x in block.x..block.xend {
        let at = (y * grid.width + x) as usize;
        seen = join(seen, picture[at], all);
    }
    seen
}

// The least window that has those of a block's heights that lie in the window `all`; without any, one that ends where
// or before it begins.
pub fn seen_in(picture: &[u16], grid: Grid, block: Block, all: Layers) -> Layers
    requires { ForSeen grid picture.now block all }
    ensures { Tight grid picture.now block all result }
{
    let mut seen = Layers {
        from: all.end,
        end: all.from,
    };
    if all.end <= all.from {
        return seen;
    }
    for y in block.y..block.yend {
        seen = seen_row(picture, grid, block, y, all, seen);
    }
    seen
}
