// Two 64-tiles, one above the other, in both orders: z less 100, on a grid of 1 by 1 and depth 128. And lists that are no
// orders.
use figure_lines::{given, say};
use layers::tile_solid_in_order;

fn draw(what: &[u8], tape: &[u8], order: &[u16]) {
    let grid = given::grid(1, 1, 128);
    let mut work = given::work();
    let mut picture = [65535u16; 1];
    say::answer(
        what,
        tile_solid_in_order(tape, grid, order, &mut picture, &mut work),
    );
    say::height(&picture);
}

pub fn both_orders() {
    let list = [3i32, 0, 0, 0, 0, 0, 1, 0, 0, 6553600, 10, 0, 0, 1, 0];
    let tape: [u8; 38] = given::packed(b"z less 100", 2, &list);
    draw(b"tiles 0, 1", &tape, &[0, 1]);
    draw(b"tiles 1, 0", &tape, &[1, 0]);
    draw(b"tiles 0, 0", &tape, &[0, 0]);
    draw(b"tile 0 alone", &tape, &[0]);
    draw(b"tiles 0, 2", &tape, &[0, 2]);
}
