// What a row mentions by number, by what it says: attributes, rows, variables and errors.
ghost use Rattle.std.specs.Prelude.{◌≡◌, ◌&&◌, List, ℕ, leb, ltb};
ghost use Rattle.lingua.specs.Value.{all_of};
ghost use Rattle.lingua.specs.Operations.{unary_meaning, binary_meaning};
ghost use Rattle.lingua.specs.Rows.{operands, parts, evaluated, yoke_root, yoke_set};
ghost use Rattle.lingua.specs.Rules.{unary_attribute, binary_attribute, type_attributes, expression_attributes, handled_errors};
ghost use Rattle.lingua.specs.References.{type_parts, expression_variables, instruction_variables};
ghost use Rattle.decoder.specs.Mentions.{listed};
ghost use Rattle.decoder.specs.Decoded.{type_meaning, expression_meaning, instruction_meaning};

use crate::decode::{ExpressionRow, InstructionRow, TypeRow};
use lingua::operations::{BinaryOperation, UnaryOperation};

// At most three numbers.
#[derive(Clone, Copy)]
pub enum UpToThree {
    None,
    One([usize; 1]),
    Two([usize; 2]),
    Three([usize; 3]),
}

impl UpToThree {
    pub fn numbers(&self) -> &[usize]
        ensures { result.now ≡ listed self.now }
    {
        match self {
            UpToThree::None => &[],
            UpToThree::One(numbers) => numbers,
            UpToThree::Two(numbers) => numbers,
            UpToThree::Three(numbers) => numbers,
        }
    }
}

pub fn type_attributes(row: TypeRow) -> UpToThree
    ensures { listed result ≡ type_attributes (type_meaning row) }
{
    match row {
        TypeRow::Record(n, _) => UpToThree::One([n]),
        TypeRow::Expand(_, n, _) => UpToThree::One([n]),
        _ => UpToThree::None,
    }
}

pub fn type_parts(row: TypeRow) -> UpToThree
    ensures { listed result ≡ type_parts (type_meaning row) }
{
    match row {
        TypeRow::Simple(_) => UpToThree::None,
        TypeRow::List(a) => UpToThree::One([a]),
        TypeRow::Record(_, a) => UpToThree::One([a]),
        TypeRow::Expand(a, _, b) => UpToThree::Two([a, b]),
    }
}

pub fn operands(row: ExpressionRow) -> UpToThree
    ensures { (rows : List ℕ) (i : ℕ) → listed result ≡ operands (expression_meaning rows i row) }
{
    match row {
        ExpressionRow::Unary(_, a) => UpToThree::One([a]),
        ExpressionRow::Binary(_, a, b) => UpToThree::Two([a, b]),
        ExpressionRow::Lazy(_, a, b) => UpToThree::Two([a, b]),
        ExpressionRow::Choice(a, b, c) => UpToThree::Three([a, b, c]),
        ExpressionRow::AllList(a) => UpToThree::One([a]),
        _ => UpToThree::None,
    }
}

fn unary_attributes(o: UnaryOperation) -> UpToThree
    ensures { listed result ≡ unary_attribute (unary_meaning o) }
{
    match o {
        UnaryOperation::MakeRecord(n) => UpToThree::One([n as usize]),
        UnaryOperation::Select(n) => UpToThree::One([n as usize]),
        UnaryOperation::Remove(n) => UpToThree::One([n as usize]),
        _ => UpToThree::None,
    }
}

fn binary_attributes(o: BinaryOperation) -> UpToThree
    ensures { listed result ≡ binary_attribute (binary_meaning o) }
{
    match o {
        BinaryOperation::Expand(n) => UpToThree::One([n as usize]),
        BinaryOperation::Change(n) => UpToThree::One([n as usize]),
        _ => UpToThree::None,
    }
}

pub fn attributes(row: ExpressionRow) -> UpToThree
    ensures { (rows : List ℕ) (i : ℕ) → listed result ≡ expression_attributes (expression_meaning rows i row) }
{
    match row {
        ExpressionRow::Unary(o, _) => unary_attributes(o),
        ExpressionRow::Binary(o, _, _) => binary_attributes(o),
        _ => UpToThree::None,
    }
}

pub fn variables(row: ExpressionRow) -> UpToThree
    ensures { (rows : List ℕ) (i : ℕ) → listed result ≡ expression_variables (expression_meaning rows i row) }
{
    match row {
        ExpressionRow::Variable(n) => UpToThree::One([n]),
        _ => UpToThree::None,
    }
}

pub fn handled(row: InstructionRow) -> UpToThree
    ensures { listed result ≡ handled_errors (instruction_meaning row) }
{
    match row {
        InstructionRow::Handle(n, _) => UpToThree::One([n]),
        _ => UpToThree::None,
    }
}

pub fn parts(row: InstructionRow) -> UpToThree
    ensures { listed result ≡ parts (instruction_meaning row) }
{
    match row {
        InstructionRow::Sequence(i, j) => UpToThree::Two([i, j]),
        InstructionRow::Branch(_, i, j) => UpToThree::Two([i, j]),
        InstructionRow::Loop(_, i) => UpToThree::One([i]),
        InstructionRow::Handle(_, i) => UpToThree::One([i]),
        _ => UpToThree::None,
    }
}

pub fn evaluated(row: InstructionRow) -> UpToThree
    ensures { listed result ≡ evaluated (instruction_meaning row) }
{
    match row {
        InstructionRow::Assign(_, e) => UpToThree::One([e]),
        InstructionRow::Branch(e, _, _) => UpToThree::One([e]),
        InstructionRow::Loop(e, _) => UpToThree::One([e]),
        _ => UpToThree::None,
    }
}

// The variable that is assigned to, or whose yoke is set.
pub fn assigned(row: InstructionRow) -> UpToThree
    ensures { listed result ≡ instruction_variables (instruction_meaning row) }
{
    match row {
        InstructionRow::Assign(n, _) => UpToThree::One([n]),
        InstructionRow::SetYoke(n, _) => UpToThree::One([n]),
        _ => UpToThree::None,
    }
}

// The expression row of a yoke as in the state words: 0 has none.
pub fn yoke_root(yoke: usize) -> UpToThree
    ensures { listed result ≡ yoke_root yoke }
{
    if yoke == 0 {
        return UpToThree::None;
    }
    UpToThree::One([yoke - 1])
}

pub fn yoke_set(row: InstructionRow) -> UpToThree
    ensures { listed result ≡ yoke_set (instruction_meaning row) }
{
    match row {
        InstructionRow::SetYoke(_, y) => yoke_root(y),
        _ => UpToThree::None,
    }
}

// Whether a number lies from low on and below an end.
pub fn is_within(low: usize, end: usize, n: usize) -> bool
    ensures { result ≡ (leb low n && ltb n end) }
{
    low <= n && n < end
}

pub fn all_within(f: UpToThree, low: usize, end: usize) -> bool
    ensures { result ≡ all_of (λ n. leb low n && ltb n end) (listed f) }
{
    f.numbers().iter().all(|n| is_within(low, end, *n))
}
