// The figures of the scope paper that are run, by the public calls: tapes, both files, and the limits; and the drawn
// figures of tapes of edition 02, of two tapes into one, and of tiles in both orders. Number, place and count of each
// call are written.
#![tactic(auto)]

mod drawn;
mod files;
mod limits;
mod orders;
mod tapes;

fn main() {
    tapes::example();
    tapes::least_constant();
    tapes::edition_02();
    tapes::merged();
    files::flat();
    files::flat_in_full();
    files::solid();
    files::solid_in_full();
    orders::both_orders();
    limits::most_clauses();
    limits::too_many_clauses();
    limits::sizes();
    limits::flat_work();
    limits::solid_work();
}
