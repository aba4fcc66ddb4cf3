// An unknown tile is judged, and its entry written.
ghost use Rattle.std.specs.Prelude.{◌≡◌, false, ℕ, ◌≤◌, eqb};
ghost use Rattle.rules.specs.Values.{pick};
ghost use Rattle.rules.specs.Tapes.{clause_limit};
ghost use Rattle.rules.specs.Accepted.{Accepted};
ghost use Rattle.code.specs.Words.{tape_in};
ghost use Rattle.shortening.specs.Kept.{mark_room};
ghost use Rattle.picture.specs.Shapes.{grid_in};
ghost use Rattle.walk.specs.Cells.{region_in};
ghost use Rattle.table_rules.specs.Tables.{tile_of, entry_of, put_entry};
ghost use Rattle.verdicts.specs.Verdicts.{byte_of};
ghost use Rattle.verdict_entries.specs.Entries.{ForVerdict, VerdictOn, ForEntry, Met};

use crate::entry::{entry_at, put_entry};
use picture::grid::Grid;
use plate_tiles::tiles::tile;
use shortening::marks::mark_room;
use verdicts::verdict::Verdict;
use walk::cell::{Cell, flat_bounds};
use walk::judge::{Outcome, judge};

// Of a tile that is cut a short tape is kept: the bytes of its marks stand in the work buffer behind the choices.
fn tile_verdict(whole: &[u64], grid: Grid, cell: Cell, work: &mut [u8], next: &mut [u64]) -> Verdict
    requires { ForVerdict whole.now grid cell work.old next.old }
    ensures { VerdictOn whole.now grid (region_in cell) work.new (byte_of result) }
{
    let judged = judge(
        whole,
        whole,
        flat_bounds(grid, cell),
        work,
        whole.len(),
        next,
    );
    match judged.outcome {
        Outcome::Full => Verdict::Full,
        Outcome::Empty => Verdict::Empty,
        Outcome::Cut(_) => Verdict::Kept,
    }
}

// How many bytes of marks an entry has: those of all clauses of a tape that is kept, else none.
fn kept_room(verdict: Verdict, count: usize) -> usize
    requires { count ≤ clause_limit }
    ensures { result ≡ pick (eqb (byte_of verdict) 3) (mark_room count) 0 }
{
    match verdict {
        Verdict::Kept => mark_room(count),
        _ => 0,
    }
}

fn write_entry(
    whole: &[u64],
    grid: Grid,
    number: u32,
    table: &mut [u8],
    work: &mut [u8],
    next: &mut [u64],
)
    requires { ForEntry whole.now grid number table.old work.old next.old }
    ensures { (n : ℕ) → Accepted (tape_in n whole.now)
        → table.new
        ≡ put_entry number
        (entry_of (tape_in n whole.now) (grid_in grid false) (tile_of (grid_in grid false) number))
        table.old }
{
    let cell = tile(grid, number);
    let verdict = tile_verdict(whole, grid, cell, work, next);
    let base = whole.len();
    let end = base + kept_room(verdict, base);
    put_entry(table, entry_at(number), u8::from(verdict), &work[base..end])
}

// "Whoever meets an unknown tile writes the verdict": returned are the clauses of its own run, 0 if it was known.
pub fn meet(
    whole: &[u64],
    grid: Grid,
    number: u32,
    table: &mut [u8],
    work: &mut [u8],
    next: &mut [u64],
) -> u64
    requires { ForEntry whole.now grid number table.old work.old next.old }
    ensures { Met whole.now grid number table.old table.new result }
{
    if table[entry_at(number)] != u8::from(Verdict::Unknown) {
        return 0;
    }
    write_entry(whole, grid, number, table, work, next);
    whole.len() as u64
}
