//! The jobs without a world: answering packets line by line, and the text of a package. The types
//! of what jobs are asked for.
#![tactic(auto)]

mod alone;
mod device_set;
mod drops;
mod forms;
mod held_back;
mod image_files;
mod inspection;
mod package_choice;
mod processes;
mod responder;
mod retries;
mod roughness;
mod serial;
mod serving;
mod shows;
mod stream;
mod text;

pub use alone::{AgentAlone, DeviceAlone};
pub use device_set::DeviceSet;
pub use drops::LineDropCause;
pub use forms::{Form, TraceForm};
pub use held_back::HeldBack;
pub use image_files::{ConfigSource, ImageFile, ImageFiles, MAX_IMAGE_FILES};
pub use inspection::{InspectFault, beginning_of, inspect, inspect_beginning};
pub use package_choice::PackageChoice;
pub use processes::{AgentProcess, DeviceProcess, Serving, Watching, Wire};
pub use retries::{read_some, write_whole};
pub use roughness::Roughness;
pub use serial::SerialResponder;
pub use serving::{LineServer, serve_stream};
pub use shows::Show;
pub use stream::{AnswerFault, answer_stream};
