// The public calls for C and Rust: a slice is a pointer and then a length. Each promises what the call that it wraps
// does.
#![tactic(auto)]

ghost use Rattle.std.specs.Prelude.{true, false};
ghost use Rattle.promises.specs.Plates.{AddSays, RemoveSays};
ghost use Rattle.promises.specs.Says.{PackSays, UnpackSays, FullSays, TilesSay, BitmapSays, HeightsSay};
ghost use Rattle.promises.specs.Says.{SidedSays, SlopesSay, MergeSays, TextAnswered, ReasonSays, OrderSays, SweptSays};
ghost use Rattle.promises.specs.Tables.{BeginSays, DrawSays};

use answers::Answer;
use picture::grid::Grid;
use promises::{Listed, Point, Reason, Sided};
use rectangle::Rectangle;

#[unsafe(no_mangle)]
pub extern "C" fn layers_pack_tape(slots: u32, list: &[i32], out: &mut [u8]) -> Answer
    ensures { PackSays slots list.now out.old out.new result }
{
    layers::pack_tape(slots, list, out)
}

#[unsafe(no_mangle)]
pub extern "C" fn layers_unpack_tape(tape: &[u8], out: &mut [i32]) -> Listed
    ensures { UnpackSays tape.now out.old out.new result }
{
    layers::unpack_tape(tape, out)
}

#[unsafe(no_mangle)]
pub extern "C" fn layers_merge_tapes(first: &[u8], second: &[u8], out: &mut [u8]) -> Answer
    ensures { MergeSays first.now second.now out.old out.new result }
{
    layers::merge_tapes(first, second, out)
}

#[unsafe(no_mangle)]
pub extern "C" fn layers_draw_flat(tape: &[u8], grid: Grid, picture: &mut [u8]) -> Answer
    ensures { FullSays false tape.now grid picture.old picture.new result }
{
    layers::draw_flat(tape, grid, picture)
}

#[unsafe(no_mangle)]
pub extern "C" fn layers_draw_solid(tape: &[u8], grid: Grid, picture: &mut [u16]) -> Answer
    ensures { FullSays true tape.now grid picture.old picture.new result }
{
    layers::draw_solid(tape, grid, picture)
}

#[unsafe(no_mangle)]
pub extern "C" fn layers_tile_flat(
    tape: &[u8],
    grid: Grid,
    picture: &mut [u8],
    work: &mut [u8],
) -> Answer
    ensures { TilesSay false tape.now grid picture.old picture.new
        work.old work.new result }
{
    layers::tile_flat(tape, grid, picture, work)
}

#[unsafe(no_mangle)]
pub extern "C" fn layers_tile_solid(
    tape: &[u8],
    grid: Grid,
    picture: &mut [u16],
    work: &mut [u8],
) -> Answer
    ensures { TilesSay true tape.now grid picture.old picture.new
        work.old work.new result }
{
    layers::tile_solid(tape, grid, picture, work)
}

#[unsafe(no_mangle)]
pub extern "C" fn layers_tile_solid_in_order(
    tape: &[u8],
    grid: Grid,
    order: &[u16],
    picture: &mut [u16],
    work: &mut [u8],
) -> Answer
    ensures { OrderSays tape.now grid order.now picture.old
        picture.new work.old work.new result }
{
    layers::tile_solid_in_order(tape, grid, order, picture, work)
}

#[unsafe(no_mangle)]
pub extern "C" fn layers_tile_slopes(
    tape: &[u8],
    grid: Grid,
    picture: &mut [u16],
    slopes: &mut [i32],
    work: &mut [u8],
) -> Answer
    ensures { SlopesSay tape.now grid picture.old picture.new
        slopes.old slopes.new work.old work.new result }
{
    layers::tile_slopes(tape, grid, picture, slopes, work)
}

#[unsafe(no_mangle)]
pub extern "C" fn layers_explain_pixel(
    tape: &[u8],
    grid: Grid,
    x: u32,
    y: u32,
    work: &mut [u8],
) -> Reason
    ensures { ReasonSays tape.now grid x y work.old work.new result }
{
    layers::explain_pixel(tape, grid, x, y, work)
}

#[unsafe(no_mangle)]
pub extern "C" fn layers_tile_swept(
    tape: &[u8],
    grid: Grid,
    path: &[i32],
    picture: &mut [u16],
    work: &mut [u8],
) -> Answer
    ensures { SweptSays tape.now grid path.now picture.old picture.new
        work.old work.new result }
{
    layers::tile_swept(tape, grid, path, picture, work)
}

#[unsafe(no_mangle)]
pub extern "C" fn layers_plate_add(
    memory: &mut [u8],
    place: u32,
    tape: &[u8],
    grid: Grid,
    picture: &mut [u8],
    work: &mut [u8],
) -> Answer
    ensures { AddSays place tape.now grid memory.old memory.new
        picture.old picture.new work.old work.new result }
{
    layers::plate_add(memory, place, tape, grid, picture, work)
}

#[unsafe(no_mangle)]
pub extern "C" fn layers_plate_remove(
    memory: &mut [u8],
    place: u32,
    grid: Grid,
    picture: &mut [u8],
    work: &mut [u8],
) -> Answer
    ensures { RemoveSays place grid memory.old memory.new picture.old
        picture.new work.old work.new result }
{
    layers::plate_remove(memory, place, grid, picture, work)
}

#[unsafe(no_mangle)]
pub extern "C" fn layers_table_begin(tape: &[u8], grid: Grid, table: &mut [u8]) -> Answer
    ensures { BeginSays tape.now grid table.old table.new result }
{
    layers::table_begin(tape, grid, table)
}

#[unsafe(no_mangle)]
pub extern "C" fn layers_table_draw(
    tape: &[u8],
    grid: Grid,
    rectangle: Rectangle,
    table: &mut [u8],
    picture: &mut [u8],
    work: &mut [u8],
) -> Answer
    ensures { DrawSays tape.now grid rectangle table.old table.new
        picture.old picture.new work.old work.new result }
{
    layers::table_draw(tape, grid, rectangle, table, picture, work)
}

#[unsafe(no_mangle)]
pub extern "C" fn layers_write_bitmap(
    width: u32,
    height: u32,
    picture: &[u8],
    out: &mut [u8],
) -> Answer
    ensures { BitmapSays width height picture.now out.old out.new result }
{
    layers::write_bitmap(width, height, picture, out)
}

#[unsafe(no_mangle)]
pub extern "C" fn layers_write_heights(
    width: u32,
    height: u32,
    picture: &[u16],
    out: &mut [u8],
) -> Answer
    ensures { HeightsSay width height picture.now out.old out.new result }
{
    layers::write_heights(width, height, picture, out)
}

#[unsafe(no_mangle)]
pub extern "C" fn layers_probe(tape: &[u8], point: Point) -> Sided
    ensures { SidedSays tape.now point result }
{
    layers::probe_side(tape, point)
}

#[unsafe(no_mangle)]
pub extern "C" fn layers_read_text(text: &[u8], out: &mut [u8]) -> Answer
    ensures { TextAnswered text.now out.old out.new result }
{
    layers::read_text(text, out)
}
