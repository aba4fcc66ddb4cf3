// A tile by its entry.
ghost use Rattle.std.specs.Prelude.{◌≡◌, ◌<◌, ◌≤◌, length, get_or};
ghost use Rattle.sweep.specs.Chunks.{block_rows};
ghost use Rattle.verdicts.specs.Verdicts.{byte_of};
ghost use Rattle.verdict_tiles.specs.Shares.{ForKnown, ForShared, KnownDrawn, TileShared, TileApart};

use flat_eights::eights::eights;
use flat_eights::look::fill;
use picture::grid::Grid;
use plate_tiles::tiles::tile;
use sweep::BLOCK;
use verdict_entries::entry::entry_at;
use verdict_entries::judged::meet;
use verdict_entries::kept::kept_words;
use verdicts::verdict::Verdict;

// An entry of a table that passes says one of the verdicts.
fn verdict_at(table: &[u8], at: usize) -> Verdict
    requires at_in_table { at < length table.now }
    requires says_one { get_or table.now at 0 ≤ 3 }
    ensures { byte_of result ≡ get_or table.now at 0 }
{
    Verdict::try_from(table[at]).unwrap_or(Verdict::Unknown)
}

// A known tile, with no run of the region of side 64: full, empty, or the kept tape on the regions of side 8.
fn known_tile(
    whole: &[u64],
    grid: Grid,
    number: u32,
    table: &[u8],
    picture: &mut [u8],
    work: &mut [u8],
    first: &mut [u64],
    second: &mut [u64],
    slots: &mut [[i32; 8]; BLOCK],
    choices: &mut [[u8; 8]],
) -> u64
    requires { ForKnown whole.now grid number table.now picture.old work.old first.old second.old
        slots.old choices.old }
    ensures known_drawn { KnownDrawn whole.now grid number table.now
        picture.old picture.new result }
    ensures slots_len { length slots.new ≡ block_rows }
    ensures tile_apart { TileApart grid number picture.old picture.new }
{
    let cell = tile(grid, number);
    let at = entry_at(number);
    match verdict_at(table, at) {
        Verdict::Full => {
            fill(grid, cell, picture);
            0
        }
        Verdict::Empty => 0,
        _ => {
            let start = kept_words(whole, table, at, work, first);
            let kept = &first[start..];
            eights(
                whole, kept, grid, cell, picture, work, second, slots, choices,
            )
        }
    }
}

// A tile that the table knows or not: an unknown one is judged and written first, and its own run counted.
pub fn table_tile(
    whole: &[u64],
    grid: Grid,
    number: u32,
    table: &mut [u8],
    picture: &mut [u8],
    work: &mut [u8],
    first: &mut [u64],
    second: &mut [u64],
    slots: &mut [[i32; 8]; BLOCK],
    choices: &mut [[u8; 8]],
) -> u64
    requires { ForShared whole.now grid number table.old picture.old work.old first.old second.old
        slots.old choices.old }
    ensures tile_shared { TileShared whole.now grid number table.old table.new
        picture.old picture.new result }
    ensures slots_len { length slots.new ≡ block_rows }
    ensures tile_apart { TileApart grid number picture.old picture.new }
{
    let own = meet(whole, grid, number, table, work, first);
    let inside = known_tile(
        whole, grid, number, table, picture, work, first, second, slots, choices,
    );
    own + inside
}
