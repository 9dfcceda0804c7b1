// What a tool gives.

/// What a tool gives of an input.
#[derive(Debug, Drop)]
pub struct ToolText {
    /// Whether something is wrong in the input; then the bytes say what.
    pub is_wrong: bool,
    /// The bytes that it gives.
    pub bytes: Vec<u8>,
}
