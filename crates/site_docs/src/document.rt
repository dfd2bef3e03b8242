//! The documents of sites, deltas and summaries: read in any order of their members, and written.

pub(crate) mod envelope;
pub(crate) mod reading;
pub(crate) mod shown_rows;
pub(crate) mod site_documents;
pub(crate) mod writing;
