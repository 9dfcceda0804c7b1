// What the table says of a function byte.
use crate::instruction_table::{Effect, Form};

/// A row of the table.
#[derive(Clone, Copy)]
pub struct Row {
    /// The instruction's name in assembly text.
    pub name: &'static str,
    /// The form of its operand.
    pub form: Form,
    /// What it does.
    pub effect: Effect,
}

/// A row without its name.
#[derive(Clone, Copy)]
pub struct Shape {
    /// The form of its operand.
    pub form: Form,
    /// What it does.
    pub effect: Effect,
}
