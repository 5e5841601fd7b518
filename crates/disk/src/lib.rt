//! Files of a folder: how they are opened, read, made and replaced, so that a crash leaves the old bytes or the new ones.
#![tactic(auto)]

mod reading;
mod regular;
mod replacement;

pub use reading::{fill, if_there};
pub use regular::{look_at, open_regular};
pub use replacement::{
    OWNER_ALONE, create_beside, place_file, replace_file, sync_folder, write_synced,
};
