// What the clauses of a formula do, with their opcodes by the table of opcodes.
ghost use Rattle.std.specs.Prelude.{◌≡◌};
ghost use Rattle.tape.specs.Clauses.{raw_of, five};
ghost use Rattle.formula_rules.specs.FormulaDepths as depths;
ghost use Rattle.formula.specs.Steps.{step_of, CanNumber};

use tape::Fields;

#[derive(Clone, Copy)]
pub enum Axis {
    X = 1,
    Y = 2,
    Z = 3,
}

#[derive(Clone, Copy)]
pub enum Unary {
    Negate = 5,
    Abs = 6,
    Sqr = 7,
    Root = 8,
}

#[derive(Clone, Copy)]
pub enum Binary {
    Add = 9,
    Subtract = 10,
    Multiply = 11,
    Minimum = 12,
    Maximum = 13,
    Divide = 14,
}

// What has a name.
#[derive(Clone, Copy)]
pub enum Function {
    One(Unary),
    Two(Binary),
}

// A number in units or an axis, put into a slot; an operation on the value there, or on it and the one in the next slot.
#[derive(Clone, Copy)]
pub enum Step {
    Number(u32),
    Axis(Axis),
    Unary(Unary),
    Binary(Binary),
}

impl Step {
    // The clause's numbers. Opcode 0 is the constant.
    pub fn fields(self, slot: usize) -> Fields
        requires { CanNumber self slot }
        ensures { five (raw_of result) ≡ depths.five (step_of self slot) }
    {
        let out = slot as i32;
        let plain = Fields {
            opcode: 0,
            out,
            left: 0,
            right: 0,
            constant: 0,
        };
        match self {
            Step::Number(units) => Fields {
                constant: units as i32,
                ..plain
            },
            Step::Axis(axis) => Fields {
                opcode: axis as i32,
                ..plain
            },
            Step::Unary(operation) => Fields {
                opcode: operation as i32,
                left: out,
                ..plain
            },
            Step::Binary(operation) => Fields {
                opcode: operation as i32,
                left: out,
                right: out + 1,
                ..plain
            },
        }
    }
}
