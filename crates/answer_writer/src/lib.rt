//! Answers that are written part by part, and what stands of them where they are cut off; what a line
//! of the events is answered, and the events that a query selects, written as they were read.
#![tactic(auto)]

mod events;
mod file_input;
mod line_answers;
mod output;
mod outside;
mod picked_line;
mod selected_lines;
mod stop;

pub use events::{LineCommand, answer_lines, either, tell_line_refusal};
pub use file_input::read_file;
pub use line_answers::{LineFollower, follow_lines};
pub use output::{put_line, put_text, tell_diagnostic};
pub use outside::{Lent, Outside};
pub use picked_line::put_picked;
pub use selected_lines::select_lines;
pub use stop::Stop;
