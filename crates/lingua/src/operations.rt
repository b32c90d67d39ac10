// The operations of expression rows, as the code tells them apart; a record's operations name an attribute.
// Of one operand: kinds 14, 16, 18, 20, 22, 23, 26, 28, 29.
#[derive(Clone, Copy)]
pub enum UnaryOperation {
    Negation,
    MakeRecord(u8),
    Select(u8),
    MakeList,
    Top,
    Pop,
    Remove(u8),
    ToHundredths,
    ToNumber,
}

// Of two operands: kinds 5 to 10, 13, 17, 19, 21.
#[derive(Clone, Copy)]
pub enum BinaryOperation {
    Add,
    Subtract,
    Multiply,
    Divide,
    Less,
    Equal,
    Glue,
    Expand(u8),
    Change(u8),
    Push,
}
