// The places of a plate's memory: their checks, the tape in one, and a place that is filled or emptied.
#![tactic(auto)]

ghost use Rattle.std.specs.Prelude.{◌≡◌, ◌++◌, ◌<◌, ◌≤◌, length, drop};
ghost use Rattle.plate_rules.specs.Plate.{places, place_size, plate_size, places_of, all_zero, place_fault, places_fault};
ghost use Rattle.plate_rules.specs.Plate.{stored, padded, zeros};
ghost use Rattle.answers.specs.Says.{answer_in};
ghost use Rattle.plate_places.specs.Places.{fault_answer, TapeEnd};

use faults::Refusal;
use picture::bits::clear;
use tape::bytes::word_at;
use tape::{CLAUSE_BYTES, HEAD_BYTES};
use tape_check::check_tape;

pub const PLACES: usize = 8;

pub const PLACE_SIZE: usize = 65536;

// A place that begins with another byte than 0 is told by that byte.
pub fn all_zero(bytes: &[u8]) -> bool
    ensures { result ≡ all_zero bytes.now }
{
    bytes.iter().all(|b| *b == 0)
}

// Where the tape of a place ends: what stands behind it is free.
pub fn tape_end(place: &[u8]) -> usize
    requires { length place.now ≡ place_size }
    ensures { TapeEnd place.now result }
{
    let end = HEAD_BYTES + CLAUSE_BYTES * word_at(place, 4) as usize;
    end.min(place.len())
}

pub fn check_place(place: &[u8]) -> Result<(), Refusal>
    requires { length place.now ≡ place_size }
    ensures { answer_in result ≡ fault_answer (place_fault place.now) }
{
    if all_zero(place) {
        return Ok(());
    }
    let end = tape_end(place);
    check_tape(&place[..end])?;
    Ok(())
}

// The lowest place that is neither empty nor begins with an accepted tape.
pub fn check_places(memory: &[u8]) -> Result<(), Refusal>
    requires { length memory.now ≡ plate_size }
    ensures { answer_in result ≡ fault_answer (places_fault (places_of memory.now)) }
{
    for i in 0..PLACES {
        let start = i * PLACE_SIZE;
        check_place(&memory[start..start + PLACE_SIZE])?;
    }
    Ok(())
}

fn fill_place(place: &mut [u8], tape: &[u8])
    requires place_len { length place.old ≡ place_size }
    requires tape_in_place { length tape.now ≤ place_size }
    ensures { place.new ≡ padded tape.now }
{
    clear(place);
    place[..tape.len()].copy_from_slice(tape)
}

pub fn store_tape(memory: &mut [u8], place: usize, tape: &[u8])
    requires memory_len { length memory.old ≡ plate_size }
    requires place_in_memory { place < places }
    requires tape_in_place { length tape.now ≤ place_size }
    ensures { memory.new ≡ stored place (padded tape.now) memory.old }
{
    let start = place * PLACE_SIZE;
    fill_place(&mut memory[start..start + PLACE_SIZE], tape)
}

pub fn empty_place(memory: &mut [u8], place: usize)
    requires memory_len { length memory.old ≡ plate_size }
    requires place_in_memory { place < places }
    ensures { memory.new ≡ stored place zeros memory.old }
{
    let start = place * PLACE_SIZE;
    clear(&mut memory[start..start + PLACE_SIZE])
}
