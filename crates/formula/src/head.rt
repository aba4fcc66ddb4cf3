// The front of an item: a number, an axis, a bracket, or a name with its bracket.
ghost use Rattle.std.specs.Prelude.{◌≤◌, length};
ghost use Rattle.formula.specs.Heads.{NoSpace, NoLeaf, Spelt, AfterM, WordAt, HeadAt};

use crate::digits::number;
use crate::steps::{Axis, Binary, Function, Step, Unary};
use crate::text::{Stop, expect, peek, skip};

// A function, and where its name ends.
#[derive(Clone, Copy)]
pub struct Name {
    pub end: usize,
    pub function: Function,
}

// The whole item, of one clause, and where it ends; or the bracket that opens there, of one sum, with what follows the
// sum if something does, or of two.
#[derive(Clone, Copy)]
pub enum Front {
    Leaf(usize, Step),
    One(usize, Option<Unary>),
    Two(usize, Binary),
}

// The function whose name's last letters must stand at `from`.
fn spell(text: &[u8], from: usize, letters: &[u8], function: Function) -> Result<Name, Stop>
    ensures { Spelt text.now from letters.now function result }
{
    let mut end = from;
    for letter in letters {
        end = expect(text, end, *letter)?;
    }
    Ok(Name { end, function })
}

// abs, sqr, root, min or max.
fn word(text: &[u8], from: usize) -> Result<Name, Stop>
    requires { (from ≤ length text.now) × NoLeaf text.now from }
    ensures { WordAt text.now from result }
{
    match peek(text, from) {
        Some(b'a') => spell(text, from + 1, b"bs", Function::One(Unary::Abs)),
        Some(b's') => spell(text, from + 1, b"qr", Function::One(Unary::Sqr)),
        Some(b'r') => spell(text, from + 1, b"oot", Function::One(Unary::Root)),
        Some(b'm') => min_or_max(text, from + 1),
        _ => Err(Stop::Breaks(from)),
    }
}

// After an m.
fn min_or_max(text: &[u8], at: usize) -> Result<Name, Stop>
    requires { at ≤ length text.now }
    ensures { AfterM text.now at result }
{
    match peek(text, at) {
        Some(b'i') => spell(text, at + 1, b"n", Function::Two(Binary::Minimum)),
        Some(b'a') => spell(text, at + 1, b"x", Function::Two(Binary::Maximum)),
        _ => Err(Stop::Breaks(at)),
    }
}

// A name, with the bracket that must follow it.
fn called(text: &[u8], from: usize) -> Result<Front, Stop>
    requires { (from ≤ length text.now) × NoLeaf text.now from }
    ensures { HeadAt text.now from result }
{
    let named = word(text, from)?;
    let at = skip(text, named.end);
    expect(text, at, b'(')?;
    match named.function {
        Function::One(operation) => Ok(Front::One(at, Some(operation))),
        Function::Two(operation) => Ok(Front::Two(at, operation)),
    }
}

pub fn head(text: &[u8], from: usize) -> Result<Front, Stop>
    requires { (from ≤ length text.now) × NoSpace text.now from }
    ensures { HeadAt text.now from result }
{
    if let Some(number) = number(text, from)? {
        return Ok(Front::Leaf(number.end, Step::Number(number.units)));
    }
    match peek(text, from) {
        Some(b'(') => Ok(Front::One(from, None)),
        Some(b'x') => Ok(Front::Leaf(from + 1, Step::Axis(Axis::X))),
        Some(b'y') => Ok(Front::Leaf(from + 1, Step::Axis(Axis::Y))),
        Some(b'z') => Ok(Front::Leaf(from + 1, Step::Axis(Axis::Z))),
        _ => called(text, from),
    }
}
