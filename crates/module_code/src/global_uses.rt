// How instructions use globals.
use instruction_set::instruction_table::Effect;

/// How an instruction uses a global.
#[derive(Clone, Copy)]
pub enum Use {
    /// It calls it.
    Calls,
    /// It reads it.
    Reads,
    /// It writes it.
    Writes,
    /// It takes its address.
    Addresses,
}

/// How an instruction with this effect uses the global that its operand names, if it does.
pub fn use_of(effect: Effect) -> Option<Use> {
    match effect {
        Effect::CallG(_) => Some(Use::Calls),
        Effect::StoreG => Some(Use::Writes),
        Effect::LoadGAddress => Some(Use::Addresses),
        Effect::LoadG | Effect::LoadGk(_) | Effect::StoreG0 | Effect::AddG => Some(Use::Reads),
        _ => None,
    }
}
