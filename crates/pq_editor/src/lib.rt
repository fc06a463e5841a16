//! What one editor gets beside the answers of the sources: pure texts and lists, with no handle.
//!
//! `imports` finds the imports of a text with their places. `links` prints them as document links, and
//! finds the one at a position. `faults` prints the diagnostics of a file that is not read. `said` prints
//! what the server says of itself: lines of the log, messages, and progress. `reports` prints the report
//! of all files, and `laws` has the theorem about the lists that are put into it. `places` makes JSON
//! values of positions and ranges.
//!
//! `specs/Imports`, `specs/Links`, `specs/Faults`, `specs/Said` and `specs/Reports` define what each
//! function returns. Each function takes time and memory linear in its input and its result.
#![tactic(auto)]

mod faults;
mod imports;
mod laws;
mod links;
mod places;
mod reports;
mod said;
#[cfg(test)]
mod tests;

pub use faults::{FileFault, fault_list, fault_report};
pub use imports::{Import, imported_names, imports_of};
pub use laws::workspace_spliced;
pub use links::{Link, import_at, links_text, start_of_file_text};
pub use pq_names::Text;
pub use reports::{FileReport, workspace_text};
pub use said::{
    BEGIN_PROGRESS_REQUEST, Kind, REFRESH, begin_progress_request, log_message, progress_begun,
    progress_ended, refresh_request, show_message,
};
pub use std::alloc::AllocError as Memory;
