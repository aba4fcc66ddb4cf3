// The tiles of a plate's picture that the changed part touches, drawn afresh from the parts present: the part that comes
// is joined first, while its words are there, and then those of the other places, each unpacked once.
#![tactic(auto)]

ghost use Rattle.std.specs.Prelude.{◌≡◌, false, [], ◌∷◌, ℕ, length, replicate};
ghost use Rattle.rules.specs.Tapes.{read_tape};
ghost use Rattle.rules.specs.Accepted.{Accepted};
ghost use Rattle.code.specs.Words.{tape_in};
ghost use Rattle.picture.specs.Shapes.{grid_in};
ghost use Rattle.walk.specs.Cells.{size_in};
ghost use Rattle.answers.specs.Lines.{Draws};
ghost use Rattle.plate_rules.specs.Plate.{places_from, parts_in, union_of, afresh, redrawn, stored};
ghost use Rattle.plate_tiles.specs.Joins.{ForJoins};
ghost use Rattle.plate_drawing.specs.Afresh.{Joins, Buffers, ForPlace, ForPlaces, added_heights, Began, others_of};
ghost use Rattle.plate_drawing.specs.Afresh.{comes, ForOthers, ForChange, ForRedraw, picture_limit};

use code::unpack::unpack_words;
use picture::grid::Grid;
use plate_places::{PLACE_SIZE, all_zero, tape_end};
use plate_tiles::join::join_tiles;
use plate_tiles::tiles::{TILE_LIMIT, clear_tiles, mark_tiles};
use tape::CLAUSE_LIMIT;

// As many bytes as any flat picture has.
const PICTURE_LIMIT: usize = 32768;

// What happens to a part of the plate.
#[derive(Clone, Copy)]
pub enum Change {
    Added,
    Removed,
}

fn join_place(
    place: &[u8],
    grid: Grid,
    marks: &[u8],
    blank: &mut [u8],
    picture: &mut [u8],
    work: &mut [u8],
    words: &mut [u64],
    first: &mut [u64],
    second: &mut [u64],
)
    requires for_place { ForPlace place.now }
    requires buffers { Buffers grid marks.now blank.old picture.old work.old words.old first.old second.old }
    ensures joins { Joins grid marks.now (union_of (parts_in (place.now ∷ [])) (grid_in grid false))
        picture.old picture.new }
    ensures blank_after { blank.new ≡ replicate (size_in false grid) 0 }
{
    if all_zero(place) {
        return;
    }
    let end = tape_end(place);
    let n = unpack_words(&place[..end], words);
    join_tiles(
        &words[..n],
        grid,
        marks,
        blank,
        picture,
        work,
        first,
        second,
    )
}

// The parts of `count` places.
pub fn join_places(
    places: &[u8],
    count: usize,
    grid: Grid,
    marks: &[u8],
    blank: &mut [u8],
    picture: &mut [u8],
    work: &mut [u8],
    words: &mut [u64],
    first: &mut [u64],
    second: &mut [u64],
)
    requires for_places { ForPlaces places.now count }
    requires buffers { Buffers grid marks.now blank.old picture.old work.old words.old first.old second.old }
    ensures joins { Joins grid marks.now
        (union_of (parts_in (places_from count places.now)) (grid_in grid false))
        picture.old picture.new }
    ensures blank_after { blank.new ≡ replicate (size_in false grid) 0 }
{
    for i in 0..count {
        let start = i * PLACE_SIZE;
        join_place(
            &places[start..start + PLACE_SIZE],
            grid,
            marks,
            blank,
            picture,
            work,
            words,
            first,
            second,
        );
    }
}

// The part's own tiles, where it comes.
fn join_added(
    change: Change,
    code: &[u64],
    grid: Grid,
    marks: &[u8],
    blank: &mut [u8],
    picture: &mut [u8],
    work: &mut [u8],
    first: &mut [u64],
    second: &mut [u64],
)
    requires { ForJoins code.now grid marks.now blank.old picture.old work.old first.old second.old }
    ensures by_index { (n : ℕ) → Accepted (tape_in n code.now)
        → Joins grid marks.now (added_heights change (tape_in n code.now) grid)
        picture.old picture.new }
    ensures blank_after { blank.new ≡ replicate (size_in false grid) 0 }
{
    match change {
        Change::Added => join_tiles(code, grid, marks, blank, picture, work, first, second),
        Change::Removed => {}
    }
}

// The tiles that the part touches, marked and cleared, and the part itself there if it comes.
pub fn begin(
    tape: &[u8],
    change: Change,
    grid: Grid,
    marks: &mut [u8],
    blank: &mut [u8],
    picture: &mut [u8],
    work: &mut [u8],
    words: &mut [u64],
    first: &mut [u64],
    second: &mut [u64],
)
    requires draws { Draws false tape.now (grid_in grid false) (length picture.old) }
    requires buffers { Buffers grid marks.old blank.old picture.old work.old words.old first.old second.old }
    ensures began { Began (read_tape tape.now).tape change grid marks.new
        picture.old picture.new }
    ensures blank_after { blank.new ≡ replicate (size_in false grid) 0 }
{
    let n = unpack_words(tape, words);
    mark_tiles(&words[..n], grid, work, marks);
    clear_tiles(grid, marks, picture);
    join_added(
        change,
        &words[..n],
        grid,
        marks,
        blank,
        picture,
        work,
        first,
        second,
    )
}

// The parts of every place but one.
fn join_others(
    memory: &[u8],
    place: usize,
    grid: Grid,
    marks: &[u8],
    blank: &mut [u8],
    picture: &mut [u8],
    work: &mut [u8],
    words: &mut [u64],
    first: &mut [u64],
    second: &mut [u64],
)
    requires for_others { ForOthers memory.now place }
    requires buffers { Buffers grid marks.now blank.old picture.old work.old words.old first.old second.old }
    ensures joins { Joins grid marks.now
        (union_of (parts_in (others_of place memory.now)) (grid_in grid false))
        picture.old picture.new }
    ensures blank_after { blank.new ≡ replicate (size_in false grid) 0 }
{
    let start = place * PLACE_SIZE;
    join_places(
        &memory[..start],
        place,
        grid,
        marks,
        blank,
        picture,
        work,
        words,
        first,
        second,
    );
    join_places(
        &memory[start + PLACE_SIZE..],
        7 - place,
        grid,
        marks,
        blank,
        picture,
        work,
        words,
        first,
        second,
    )
}

// The touched tiles drawn afresh, by way of a blank picture that is lent.
fn redraw(
    memory: &[u8],
    place: usize,
    tape: &[u8],
    change: Change,
    grid: Grid,
    blank: &mut [u8],
    picture: &mut [u8],
    work: &mut [u8],
)
    requires { ForRedraw memory.now place tape.now grid blank.old picture.old work.old }
    ensures { picture.new ≡ redrawn (read_tape tape.now).tape (grid_in grid false)
        (afresh (stored place (comes change tape.now) memory.now) (grid_in grid false))
        picture.old }
{
    let mut marks = [0u8; TILE_LIMIT];
    let mut words = [0u64; CLAUSE_LIMIT];
    let mut first = [0u64; CLAUSE_LIMIT];
    let mut second = [0u64; CLAUSE_LIMIT];
    begin(
        tape,
        change,
        grid,
        &mut marks,
        blank,
        picture,
        work,
        &mut words,
        &mut first,
        &mut second,
    );
    join_others(
        memory,
        place,
        grid,
        &marks,
        blank,
        picture,
        work,
        &mut words,
        &mut first,
        &mut second,
    )
}

// Zeros, of a length that no proof counts.
fn blank_picture() -> [u8; PICTURE_LIMIT]
    ensures { result ≡ replicate picture_limit 0 }
{
    [0; PICTURE_LIMIT]
}

// The picture where a part comes to a place, or goes from it: `tape` is that part's.
pub fn draw_change(
    memory: &[u8],
    place: usize,
    tape: &[u8],
    change: Change,
    grid: Grid,
    picture: &mut [u8],
    work: &mut [u8],
)
    requires { ForChange memory.now place tape.now grid picture.old work.old }
    ensures { picture.new ≡ redrawn (read_tape tape.now).tape (grid_in grid false)
        (afresh (stored place (comes change tape.now) memory.now) (grid_in grid false))
        picture.old }
{
    let size = picture.len();
    let mut blank = blank_picture();
    redraw(
        memory,
        place,
        tape,
        change,
        grid,
        &mut blank[..size],
        picture,
        work,
    )
}
