// The modules, in words.
use crate::scenes::Scene;
use run_names::NamedModule;
use std::alloc::AllocError;
use tool_texts::Said::{Bytes, Number};
use tool_texts::push_sentence;
use word_store::word_at;

impl Scene<'_> {
    /// Adds the modules, the oldest first, if there are any.
    pub fn push_modules(&self, text: &mut Vec<u8>) -> Result<(), AllocError> {
        if self.lists.modules.is_empty() {
            return Ok(());
        }
        push_sentence(text, &[Bytes(b"modules\n")])?;
        for module in self.lists.modules.as_slice().iter().rev() {
            self.push_module(text, *module)?;
        }
        Ok(())
    }

    // Adds a module. Before its first hunk are its link, the count of its hunks, and their lengths.
    fn push_module(&self, text: &mut Vec<u8>, module: NamedModule) -> Result<(), AllocError> {
        let hunks = u64::from(word_at(self.view.store, module.at, 1));
        let first = u64::from(module.at) + 2 + hunks;
        push_sentence(
            text,
            &[
                Bytes(b"  "),
                Bytes(module.name),
                Bytes(b" at "),
                Number(u64::from(module.at)),
                Bytes(b": its first hunk begins at byte "),
                Number(4 * first),
                Bytes(b"\n"),
            ],
        )
    }
}
