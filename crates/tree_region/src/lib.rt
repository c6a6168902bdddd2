//! The region of a tree on a device: what it stands for, as it is mounted (the newest slot's body, changed by the records of its
//! journal), the data blocks that no content has, and its changes under power cuts, by a record or by a whole slot.
#![tactic(auto)]

mod applying;
mod body;
mod changing;
mod checks;
mod committing;
mod fields;
mod forgetting;
mod laws;
mod listing;
mod marking;
mod mounting;
mod numbers;
mod opening;
mod owning;
mod recording;
mod region;
mod removing;
mod spelling;
mod stop;
mod storing;
mod table;
mod taking;
mod used;
mod writing;

pub use applying::replay;
pub use changing::{change_names, commit_change};
pub use committing::commit_slot;
pub use forgetting::{forget_row, forget_rows};
pub use laws::replay_agrees_with_image;
pub use mounting::mount;
pub use numbers::BlockNumbers;
pub use opening::mount_settled;
pub use owning::own_block;
pub use recording::{has_room, record_change};
pub use region::TreeRegion;
pub use removing::remove_file_name;
pub use spelling::put_slot_body;
pub use stop::MountStop;
pub use storing::{SizeAndChanges, store_file};
pub use table::BlockTable;
pub use taking::take_free;
pub use writing::write_block;
