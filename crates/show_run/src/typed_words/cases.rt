// What words are done on.

use program_places::ProgramMap;
use run_names::KnownProgram;
use session_text::Session;
use tool_bundles::Entries;
use tool_texts::Lent;

/// The session of the words, and what is known of its programs.
#[derive(Drop)]
pub struct Case<'a> {
    /// The session.
    pub session: Session,
    /// Its path.
    pub path: Lent<'a>,
    /// The programs of its files.
    pub programs: Vec<KnownProgram>,
    /// The map of its programs, if there is one.
    pub map: Option<ProgramMap<'a>>,
    /// The files that the map names.
    pub sources: Entries<'a>,
}
