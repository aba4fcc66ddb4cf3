// Sums, products, signed items and items: they call each other, and the rest of the text falls. A part leaves its
// clauses on the sheet and its value in the slot that it is given, and answers where it ends.
ghost use Rattle.std.specs.Prelude.{◌+◌, ◌≤◌};
ghost use Rattle.formula_rules.specs.FormulaCalls.{SumRead, ProductRead, SignedRead, ItemRead};
ghost use Rattle.formula_rules.specs.FormulaCalls.{SumStops, ProductStops, SignedStops, ItemStops};
ghost use Rattle.formula.specs.Parts.{Reads, Room, ItemRoom, Deeper, EndedBy, NotEnded, OneSays, TwoSays};

use crate::head::{Front, head};
use crate::joins::{plus_at, times_at};
use crate::sheet::Sheet;
use crate::steps::{Binary, Step, Unary};
use crate::text::{Stop, expect, peek, skip};

// "18 when a bracket, a function's too, opens inside 32 others."
const NEST_LIMIT: u32 = 32;

// How many brackets are open inside the one at a place.
fn deeper(depth: u32, at: usize) -> Result<u32, Stop>
    requires { depth ≤ 32 }
    ensures { Deeper depth at result }
{
    if depth == NEST_LIMIT {
        return Err(Stop::Deep(at));
    }
    Ok(depth + 1)
}

// A sum and a product differ in their operand, their joins and the spaces: one function of both would take these as
// closures, in the circle of calls.
#[cycle(enclosed_item_one_product_signed_sum_two)]
pub fn sum(
    text: &[u8],
    sheet: &mut Sheet,
    from: usize,
    slot: usize,
    depth: u32,
) -> Result<usize, Stop>
    requires { Room text.now sheet.old from slot depth }
    ensures { Reads (SumRead text.now from depth) (SumStops text.now from depth)
        text.now from slot sheet.old sheet.new result }
{
    let mut end = product(text, sheet, from, slot, depth)?;
    while let Some(operation) = plus_at(text, end) {
        end = product(text, sheet, end + 1, slot + 1, depth)?;
        sheet.push(Step::Binary(operation), slot);
    }
    Ok(end)
}

#[cycle(enclosed_item_one_product_signed_sum_two)]
fn product(
    text: &[u8],
    sheet: &mut Sheet,
    from: usize,
    slot: usize,
    depth: u32,
) -> Result<usize, Stop>
    requires { Room text.now sheet.old from slot depth }
    ensures { Reads (ProductRead text.now from depth) (ProductStops text.now from depth)
        text.now from slot sheet.old sheet.new result }
{
    let first = signed(text, sheet, from, slot, depth)?;
    let mut end = skip(text, first);
    while let Some(operation) = times_at(text, end) {
        let next = signed(text, sheet, end + 1, slot + 1, depth)?;
        sheet.push(Step::Binary(operation), slot);
        end = skip(text, next);
    }
    Ok(end)
}

// An item, with a minus before it or not.
#[cycle(enclosed_item_one_product_signed_sum_two)]
fn signed(
    text: &[u8],
    sheet: &mut Sheet,
    from: usize,
    slot: usize,
    depth: u32,
) -> Result<usize, Stop>
    requires { Room text.now sheet.old from slot depth }
    ensures { Reads (SignedRead text.now from depth) (SignedStops text.now from depth)
        text.now from slot sheet.old sheet.new result }
{
    let front = skip(text, from);
    if peek(text, front) != Some(b'-') {
        return item(text, sheet, front, slot, depth);
    }
    let after = skip(text, front + 1);
    let end = item(text, sheet, after, slot, depth)?;
    sheet.push(Step::Unary(Unary::Negate), slot);
    Ok(end)
}

#[cycle(enclosed_item_one_product_signed_sum_two)]
fn item(text: &[u8], sheet: &mut Sheet, from: usize, slot: usize, depth: u32) -> Result<usize, Stop>
    requires { ItemRoom text.now sheet.old from slot depth }
    ensures { Reads (ItemRead text.now from depth) (ItemStops text.now from depth)
        text.now from slot sheet.old sheet.new result }
{
    let front = head(text, from)?;
    match front {
        Front::Leaf(end, step) => {
            sheet.push(step, slot);
            Ok(end)
        }
        Front::One(at, operation) => {
            let inside = deeper(depth, at)?;
            one(text, sheet, at + 1, slot, inside, operation)
        }
        Front::Two(at, operation) => {
            let inside = deeper(depth, at)?;
            two(text, sheet, at + 1, slot, inside, operation)
        }
    }
}

// What a bracket of one sum holds, and the operation that follows it, if one does.
#[cycle(enclosed_item_one_product_signed_sum_two)]
fn one(
    text: &[u8],
    sheet: &mut Sheet,
    from: usize,
    slot: usize,
    depth: u32,
    operation: Option<Unary>,
) -> Result<usize, Stop>
    requires { Room text.now sheet.old from slot depth }
    ensures { OneSays text.now from slot depth operation sheet.old sheet.new result }
{
    let end = enclosed(text, sheet, from, slot, depth, b')')?;
    if let Some(operation) = operation {
        sheet.push(Step::Unary(operation), slot);
    }
    Ok(end)
}

// The two sums of a minimum or a maximum.
#[cycle(enclosed_item_one_product_signed_sum_two)]
fn two(
    text: &[u8],
    sheet: &mut Sheet,
    from: usize,
    slot: usize,
    depth: u32,
    operation: Binary,
) -> Result<usize, Stop>
    requires { Room text.now sheet.old from slot depth }
    ensures { TwoSays text.now from slot depth operation sheet.old sheet.new result }
{
    let second = enclosed(text, sheet, from, slot, depth, b',')?;
    let end = enclosed(text, sheet, second, slot + 1, depth, b')')?;
    sheet.push(Step::Binary(operation), slot);
    Ok(end)
}

// A sum, and the byte that ends it.
#[cycle(enclosed_item_one_product_signed_sum_two)]
fn enclosed(
    text: &[u8],
    sheet: &mut Sheet,
    from: usize,
    slot: usize,
    depth: u32,
    close: u8,
) -> Result<usize, Stop>
    requires { Room text.now sheet.old from slot depth }
    ensures { Reads (EndedBy text.now from depth close) (NotEnded text.now from depth close)
        text.now (from + 1) slot sheet.old sheet.new result }
{
    let end = sum(text, sheet, from, slot, depth)?;
    expect(text, end, close)
}
