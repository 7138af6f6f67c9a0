//! The text formats of a firmware update: a configuration of the agent and its devices; a schedule
//! of steps; and the report of a run. Configurations and schedules are read line by line. The first
//! line with a fault is reported, with the first of its faults.
#![tactic(auto)]

mod config;
mod draft;
mod faults;
mod lines;
mod names;
mod package_spec;
mod release_times;
mod reports;
mod schedule;
mod schedule_laws;
mod schedule_lines;
mod schedule_text;
mod spec_fields;
mod spec_lines;
mod step_text;
mod values;

pub use config::{ComponentConfig, Config, DeviceConfig, has_key};
pub use draft::read_config;
pub use faults::{ScriptCause, ScriptFault};
pub use lines::{MAX_FIELDS, fields_after, first_word, is_skipped};
pub use names::{cause_name, session_name, state_name};
pub use package_spec::{PackageSpec, SpecComponent, SpecDescriptor, SpecNumbers, SpecRecord};
pub use reports::{
    SentCount, push_agent_alone, push_device_alone, push_history, push_log, push_sessions, report,
    rising_keys, session_of,
};
pub use schedule::{
    Directive, directive_of, read_lines, read_schedule, read_step, read_ticks, read_verdict,
};
pub use schedule_laws::schedules_read_back;
pub use schedule_lines::{LineSteps, NextStep, ScheduleLine, step_count};
pub use schedule_text::{ScheduleText, write_schedule};
pub use spec_lines::read_package_spec;
