//! The world of a configuration, and the forecast of an update of its devices.
#![tactic(auto)]

mod banks;
mod forecast_laws;
mod forecast_text;
mod foretold;
mod nodes;
mod stocks;
mod store_banks;
mod stores;

pub use banks::{Banks, BanksFault, MemBanks, mem_bank};
pub use forecast_laws::forecasts_sessions;
pub use forecast_text::{forecast, known};
pub use foretold::{
    component_word, first_lacked, key, passed, plan_word, running, sent_stamp, update_word,
};
pub use nodes::{device_node, opening_world, opening_world_over};
pub use stocks::{configured_images, stock};
pub use store_banks::StoreBanks;
pub use stores::{ReadStores, Stores, SystemStores, Unopened, open_stores, read_stores};
