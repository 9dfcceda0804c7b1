// What a block is used for.

/// What a block of the store is used for.
#[derive(Clone, Copy)]
pub enum Use {
    /// It is free.
    Free,
    /// A guest has taken it.
    User,
    /// It has a task's words, globals and stack.
    OfTask,
    /// It has a module.
    OfModule,
    /// It has a coroutine's words and stack.
    OfCoroutine,
    /// It has the words of the residents.
    OfResidents,
}
