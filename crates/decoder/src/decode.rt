// What a row says: the one place that knows kinds. For each table of rows a kind has, as in the definitions, how many of a row's
// eight bytes it uses and what the row says; any other kind is unknown, and rule 6 refuses it. What a row names it names by a row's number,
// as the files do: rows stay where they were handed in, and no tree is built in memory, which is fixed.
ghost use Rattle.std.specs.Prelude.{◌≡◌, ◌+◌, ◌*◌, ◌≤◌, min, length};
ghost use Rattle.decoder.specs.Decoded.{TypeSays, ExpressionSays, InstructionSays};

use crate::fields::{a_at, b_at, c_at, kind_at};
use lingua::operations::{BinaryOperation as Binary, UnaryOperation as Unary};

// What is no list and no record.
#[derive(Clone, Copy)]
pub enum Simple {
    Boolean,
    Number,
    Word,
    Hundredths,
}

// A type row: its attribute and the types that it names are given by number.
#[derive(Clone, Copy)]
pub enum TypeRow {
    Simple(Simple),
    List(usize),
    Record(usize, usize),
    Expand(usize, usize, usize),
}

// An expression row: operands are given by row. A constant's eight bytes are read by whoever needs them. Which connective a lazy
// row is, is told by the value that settles it.
#[derive(Clone, Copy)]
pub enum ExpressionRow {
    Constant(Simple),
    Variable(usize),
    Current,
    Unary(Unary, usize),
    Binary(Binary, usize, usize),
    Lazy(bool, usize, usize),
    Choice(usize, usize, usize),
    AllList(usize),
}

// An instruction row: variables, expressions, yokes and parts are given by number. A call has its procedure, then the variables given by
// value and by reference, four bits each.
#[derive(Clone, Copy)]
pub enum InstructionRow {
    Skip,
    Assign(usize, usize),
    SetYoke(usize, usize),
    Sequence(usize, usize),
    Branch(usize, usize, usize),
    Loop(usize, usize),
    Handle(usize, usize),
    Call(usize, usize, usize),
}

// What a row says: nothing where its kind is unknown, else the bytes that it uses, and the row.
pub type Decoded<R> = Option<(u8, R)>;

// An attribute as a byte. What is above a byte stays out of range: rule 9 lets attributes through below 64.
fn byte(n: usize) -> u8
    ensures { result ≡ min n 255 }
{
    n.min(255) as u8
}

// Row i, a type's.
pub fn type_at(rows: &[u8], i: usize) -> Decoded<TypeRow>
    requires { 10 * i + 10 ≤ length rows.now }
    ensures { TypeSays rows.now i result }
{
    let kind = kind_at(rows, i);
    let a = a_at(rows, i);
    let b = b_at(rows, i);
    let c = c_at(rows, i);
    match kind {
        1 => Some((0, TypeRow::Simple(Simple::Boolean))),
        2 => Some((0, TypeRow::Simple(Simple::Number))),
        3 => Some((0, TypeRow::Simple(Simple::Word))),
        4 => Some((2, TypeRow::List(a))),
        5 => Some((4, TypeRow::Record(a, b))),
        6 => Some((6, TypeRow::Expand(a, b, c))),
        7 => Some((0, TypeRow::Simple(Simple::Hundredths))),
        _ => None,
    }
}

// Row i, an expression's. It is drawn into its callers, which then build no pair: else a step takes up to twice the instructions.
#[inline(always)]
pub fn expression_at(rows: &[u8], i: usize) -> Decoded<ExpressionRow>
    requires { 10 * i + 10 ≤ length rows.now }
    ensures { ExpressionSays rows.now i result }
{
    let kind = kind_at(rows, i);
    let a = a_at(rows, i);
    let b = b_at(rows, i);
    let c = c_at(rows, i);
    match kind {
        1 => Some((8, ExpressionRow::Constant(Simple::Boolean))),
        2 => Some((8, ExpressionRow::Constant(Simple::Number))),
        3 => Some((8, ExpressionRow::Constant(Simple::Word))),
        4 => Some((2, ExpressionRow::Variable(a))),
        5 => Some((4, ExpressionRow::Binary(Binary::Add, a, b))),
        6 => Some((4, ExpressionRow::Binary(Binary::Subtract, a, b))),
        7 => Some((4, ExpressionRow::Binary(Binary::Multiply, a, b))),
        8 => Some((4, ExpressionRow::Binary(Binary::Divide, a, b))),
        9 => Some((4, ExpressionRow::Binary(Binary::Less, a, b))),
        10 => Some((4, ExpressionRow::Binary(Binary::Equal, a, b))),
        11 => Some((4, ExpressionRow::Lazy(false, a, b))),
        12 => Some((4, ExpressionRow::Lazy(true, a, b))),
        13 => Some((4, ExpressionRow::Binary(Binary::Glue, a, b))),
        14 => Some((2, ExpressionRow::Unary(Unary::Negation, a))),
        15 => Some((6, ExpressionRow::Choice(a, b, c))),
        16 => Some((4, ExpressionRow::Unary(Unary::MakeRecord(byte(a)), b))),
        17 => Some((6, ExpressionRow::Binary(Binary::Expand(byte(b)), a, c))),
        18 => Some((4, ExpressionRow::Unary(Unary::Select(byte(b)), a))),
        19 => Some((6, ExpressionRow::Binary(Binary::Change(byte(b)), a, c))),
        20 => Some((2, ExpressionRow::Unary(Unary::MakeList, a))),
        21 => Some((4, ExpressionRow::Binary(Binary::Push, a, b))),
        22 => Some((2, ExpressionRow::Unary(Unary::Top, a))),
        23 => Some((2, ExpressionRow::Unary(Unary::Pop, a))),
        24 => Some((0, ExpressionRow::Current)),
        25 => Some((2, ExpressionRow::AllList(a))),
        26 => Some((4, ExpressionRow::Unary(Unary::Remove(byte(b)), a))),
        27 => Some((8, ExpressionRow::Constant(Simple::Hundredths))),
        28 => Some((2, ExpressionRow::Unary(Unary::ToHundredths, a))),
        29 => Some((2, ExpressionRow::Unary(Unary::ToNumber, a))),
        _ => None,
    }
}

// Row i, an instruction's.
pub fn instruction_at(rows: &[u8], i: usize) -> Decoded<InstructionRow>
    requires { 10 * i + 10 ≤ length rows.now }
    ensures { InstructionSays rows.now i result }
{
    let kind = kind_at(rows, i);
    let a = a_at(rows, i);
    let b = b_at(rows, i);
    let c = c_at(rows, i);
    match kind {
        1 => Some((0, InstructionRow::Skip)),
        2 => Some((4, InstructionRow::Assign(a, b))),
        3 => Some((4, InstructionRow::SetYoke(a, b))),
        4 => Some((4, InstructionRow::Sequence(a, b))),
        5 => Some((6, InstructionRow::Branch(a, b, c))),
        6 => Some((4, InstructionRow::Loop(a, b))),
        7 => Some((4, InstructionRow::Handle(a, b))),
        8 => Some((6, InstructionRow::Call(a, b, c))),
        _ => None,
    }
}
