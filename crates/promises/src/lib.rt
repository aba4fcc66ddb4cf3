// What the public calls promise stands in `specs/Says.antt`, and what follows from it in `proofs`. Here are the types
// that calls take and give besides grids and answers.
#![tactic(auto)]

use answers::Answer;

// The answer of unpacking, with the tape's slot count.
#[repr(C)]
#[derive(Clone, Copy)]
pub struct Listed {
    pub answer: Answer,
    pub slots: u8,
}

// A point under the cursor.
#[repr(C)]
#[derive(Clone, Copy)]
pub struct Point {
    pub x: f64,
    pub y: f64,
    pub z: f64,
}

// The side of the surface that a probed point lies on, with the value there.
#[derive(Clone, Copy)]
pub enum Probe {
    Inside(f64),
    Outside(f64),
    Surface,
    Refused,
}

// The answer of a probe, and the side of the surface that the point lies on.
#[derive(Clone, Copy)]
pub struct Probed {
    pub answer: Answer,
    pub probe: Probe,
}

// The same for callers without enums: side 0 refused, 1 inside, 2 outside, 3 surface; value 0 where there is none.
#[repr(C)]
#[derive(Clone, Copy)]
pub struct Sided {
    pub answer: Answer,
    pub side: u8,
    pub value: f64,
}

// The reason for a pixel of a flat picture: the answer, the side of the region where the walk stopped (64, 8 or 1), both
// ends of the range there or, at side 1, the value twice, and how many clauses its tape had; all 0 where it is refused.
#[repr(C)]
#[derive(Clone, Copy)]
pub struct Reason {
    pub answer: Answer,
    pub side: u32,
    pub low: i32,
    pub high: i32,
    pub clauses: u32,
}
