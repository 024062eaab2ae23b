//! What a repository holds, and what a folder of drafts has, as lines, bars, JSON, or a page that stands alone.
//!
//! It knows no repository and no folder: what is shown is handed in as rows.
#![tactic(auto)]

mod bars;
mod chain;
mod colours;
mod columns;
mod days;
mod folder;
mod folder_json;
mod folder_lines;
mod folder_page;
mod json;
mod limits;
mod names;
mod page;
mod rows;
mod targets;

pub use bars::as_bars;
pub use chain::StepRow;
pub use columns::as_columns;
pub use days::Days;
pub use folder::{Answer, DraftRow, Drafts, LayoutRow, Next, RuleOf, RuleRow};
pub use folder_json::drafts_as_json;
pub use folder_lines::drafts_as_lines;
pub use folder_page::drafts_as_page;
pub use growing_texts::{Growing, Text};
pub use json::as_json;
pub use limits::{Limits, Used};
pub use names::{DenialRow, KeyWords};
pub use page::as_page;
pub use rows::{Covers, KeyRow, Overview, PathRow, ReferenceRow, Row};
pub use targets::{ListedRow, TargetRow, targets_as_json, targets_as_lines};
