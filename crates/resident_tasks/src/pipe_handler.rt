// Pipes between tasks, and the requests for them.

mod calls;
pub mod laws;
pub mod pipes;
mod places;
mod requests;
mod slots;
pub mod turns;
pub mod views;

pub use pipes::Pipes;
pub use turns::pipe_turn;
pub use views::PipeView;
