//! The form in which documents of sites and deltas are written, read byte by byte, with no token
//! and no value between.

pub(crate) mod documents;
pub(crate) mod labels;
pub(crate) mod languages;
pub(crate) mod rows;
pub(crate) mod stamps;
pub(crate) mod summaries;
pub(crate) mod unread;
pub(crate) mod written_rows;
