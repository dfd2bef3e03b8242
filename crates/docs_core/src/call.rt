//! The calls on whole documents that edit sites, and runs of scripts.

pub(crate) mod edited_rows;
pub(crate) mod found_changes;
pub(crate) mod importing;
pub(crate) mod joined_rows;
pub(crate) mod latest_stamp;
pub(crate) mod merging;
pub(crate) mod replaying;
pub(crate) mod revised;
pub(crate) mod sites;
pub(crate) mod stamped_rows;
pub(crate) mod synced_rows;
pub(crate) mod updating;
