//! The output of `--json`: the inspection of a package, the report of a world, the plan of an
//! update, the records of a log, the active images of a configuration, and decoded packets, each as
//! one JSON value on its own line.
#![tactic(auto)]

mod alone;
mod decoded;
mod digests;
mod event_log;
mod fields;
mod forms;
mod inspection;
mod plan;
mod report;
mod status;

pub use alone::{agent_json, device_json};
pub use decoded::{JsonLines, decode_in, facts_json};
pub use digests::{inspect_digested_in, inspect_digested_json};
pub use event_log::{log_in, log_json};
pub use forms::{inspect_beginning_in, inspect_in, plan_in, report_in};
pub use inspection::{inspect_json, inspect_json_beginning};
pub use plan::plan_json;
pub use report::report_json;
pub use status::{status_in, status_json};
