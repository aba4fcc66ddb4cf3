// The public calls, each the call of its own crate. What they promise is in `crates/promises/specs/Says.antt`,
// and for a plate in `Plates.antt` beside it.
#![tactic(auto)]

ghost use Rattle.std.specs.Prelude.{true, false};
ghost use Rattle.promises.specs.Plates.{AddSays, RemoveSays};
ghost use Rattle.promises.specs.Says.{PackSays, UnpackSays, FullSays, TilesSay, SlopesSay, BitmapSays, HeightsSay};
ghost use Rattle.promises.specs.Says.{ProbeSays, SidedSays, MergeSays, TextAnswered, ReasonSays, OrderSays, SweptSays};
ghost use Rattle.promises.specs.Tables.{BeginSays, DrawSays};

pub use answers::Answer;
pub use answers::lines::WORK_LIMIT;
use picture::grid::Grid;
pub use promises::{Listed, Point, Probe, Probed, Reason, Sided};
pub use rectangle::Rectangle;

pub fn pack_tape(slots: u32, list: &[i32], out: &mut [u8]) -> Answer
    ensures { PackSays slots list.now out.old out.new result }
{
    packing::call::pack_tape(slots, list, out)
}

pub fn unpack_tape(tape: &[u8], out: &mut [i32]) -> Listed
    ensures { UnpackSays tape.now out.old out.new result }
{
    packing::call::unpack_tape(tape, out)
}

pub fn draw_flat(tape: &[u8], grid: Grid, picture: &mut [u8]) -> Answer
    ensures { FullSays false tape.now grid picture.old picture.new result }
{
    flat_drawing::draw_flat(tape, grid, picture)
}

pub fn draw_solid(tape: &[u8], grid: Grid, picture: &mut [u16]) -> Answer
    ensures { FullSays true tape.now grid picture.old picture.new result }
{
    solid_drawing::draw_solid(tape, grid, picture)
}

pub fn tile_flat(tape: &[u8], grid: Grid, picture: &mut [u8], work: &mut [u8]) -> Answer
    ensures { TilesSay false tape.now grid picture.old picture.new
        work.old work.new result }
{
    flat_drawing::tile_flat(tape, grid, picture, work)
}

pub fn tile_solid(tape: &[u8], grid: Grid, picture: &mut [u16], work: &mut [u8]) -> Answer
    ensures { TilesSay true tape.now grid picture.old picture.new
        work.old work.new result }
{
    solid_drawing::tile_solid(tape, grid, picture, work)
}

pub fn tile_slopes(
    tape: &[u8],
    grid: Grid,
    picture: &mut [u16],
    slopes: &mut [i32],
    work: &mut [u8],
) -> Answer
    ensures { SlopesSay tape.now grid picture.old picture.new
        slopes.old slopes.new work.old work.new result }
{
    slope_drawing::tile_slopes(tape, grid, picture, slopes, work)
}

pub fn explain_pixel(tape: &[u8], grid: Grid, x: u32, y: u32, work: &mut [u8]) -> Reason
    ensures { ReasonSays tape.now grid x y work.old work.new result }
{
    reason::explain_pixel(tape, grid, x, y, work)
}

pub fn tile_solid_in_order(
    tape: &[u8],
    grid: Grid,
    order: &[u16],
    picture: &mut [u16],
    work: &mut [u8],
) -> Answer
    ensures { OrderSays tape.now grid order.now picture.old
        picture.new work.old work.new result }
{
    order_drawing::tile_solid_in_order(tape, grid, order, picture, work)
}

pub fn tile_swept(
    tape: &[u8],
    grid: Grid,
    path: &[i32],
    picture: &mut [u16],
    work: &mut [u8],
) -> Answer
    ensures { SweptSays tape.now grid path.now picture.old picture.new
        work.old work.new result }
{
    swept_drawing::tile_swept(tape, grid, path, picture, work)
}

pub fn plate_add(
    memory: &mut [u8],
    place: u32,
    tape: &[u8],
    grid: Grid,
    picture: &mut [u8],
    work: &mut [u8],
) -> Answer
    ensures { AddSays place tape.now grid memory.old memory.new
        picture.old picture.new work.old work.new result }
{
    plate::plate_add(memory, place, tape, grid, picture, work)
}

pub fn plate_remove(
    memory: &mut [u8],
    place: u32,
    grid: Grid,
    picture: &mut [u8],
    work: &mut [u8],
) -> Answer
    ensures { RemoveSays place grid memory.old memory.new picture.old
        picture.new work.old work.new result }
{
    plate::plate_remove(memory, place, grid, picture, work)
}

pub fn table_begin(tape: &[u8], grid: Grid, table: &mut [u8]) -> Answer
    ensures { BeginSays tape.now grid table.old table.new result }
{
    table_calls::table_begin(tape, grid, table)
}

pub fn table_draw(
    tape: &[u8],
    grid: Grid,
    rectangle: Rectangle,
    table: &mut [u8],
    picture: &mut [u8],
    work: &mut [u8],
) -> Answer
    ensures { DrawSays tape.now grid rectangle table.old table.new
        picture.old picture.new work.old work.new result }
{
    table_calls::table_draw(tape, grid, rectangle, table, picture, work)
}

pub fn merge_tapes(first: &[u8], second: &[u8], out: &mut [u8]) -> Answer
    ensures { MergeSays first.now second.now out.old out.new result }
{
    merge::merge_tapes(first, second, out)
}

pub fn write_bitmap(width: u32, height: u32, picture: &[u8], out: &mut [u8]) -> Answer
    ensures { BitmapSays width height picture.now out.old out.new result }
{
    netpbm::call::write_bitmap(width, height, picture, out)
}

pub fn write_heights(width: u32, height: u32, picture: &[u16], out: &mut [u8]) -> Answer
    ensures { HeightsSay width height picture.now out.old out.new result }
{
    netpbm::call::write_heights(width, height, picture, out)
}

pub fn probe(tape: &[u8], point: Point) -> Probed
    ensures { ProbeSays tape.now point result }
{
    probe::call::probe(tape, point)
}

pub fn probe_side(tape: &[u8], point: Point) -> Sided
    ensures { SidedSays tape.now point result }
{
    probe::call::probe_side(tape, point)
}

pub fn read_text(text: &[u8], out: &mut [u8]) -> Answer
    ensures { TextAnswered text.now out.old out.new result }
{
    formula::call::read_text(text, out)
}
