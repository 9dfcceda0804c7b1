// The names of the kernel's words.

/// What the words of the root node are, in their order.
const ROOT_WORDS: [&[u8]; 13] = [
    b"Table",
    b"FirstTask",
    b"Running",
    b"FirstBlock",
    b"FirstModule",
    b"ClockQueue",
    b"KeyQueue",
    b"OutputQueue",
    b"Tick",
    b"Size",
    b"Period",
    b"Version",
    b"Residents",
];

/// What the first words of a packet are, in their order.
const PACKET_WORDS: [&[u8]; 5] = [
    b"the link",
    b"the sender",
    b"the type",
    b"the first result",
    b"the second result",
];

/// What the first words of a task block are, in their order. The words after them have modules.
const TASK_WORDS: [&[u8]; 23] = [
    b"Link",
    b"Id",
    b"Pri",
    b"Queue",
    b"State",
    b"Flags",
    b"Stack",
    b"StackTop",
    b"Globals",
    b"Maker",
    b"Module",
    b"SavedA",
    b"SavedB",
    b"SavedC",
    b"SavedP",
    b"SavedG",
    b"SavedPc",
    b"FirstCo",
    b"CurrentCo",
    b"RootP",
    b"RootPc",
    b"Extra1",
    b"Extra2",
];

/// What a word of the root node is, by its number there; no words where it has no name.
pub fn root_word_name(i: u32) -> &'static [u8] {
    name_of_word(&ROOT_WORDS, i)
}

/// What a word of a packet is, by its number there; no words where it has no name.
pub fn packet_word_name(i: u32) -> &'static [u8] {
    name_of_word(&PACKET_WORDS, i)
}

/// What a word of a task block is, by its number there; no words where it has no name.
pub fn task_word_name(i: u32) -> &'static [u8] {
    name_of_word(&TASK_WORDS, i)
}

// The name of a word by its number; no words where it has none.
fn name_of_word<'n>(names: &[&'n [u8]], i: u32) -> &'n [u8] {
    names.get(i as usize).copied().unwrap_or(b"")
}
