//! Handles of sites, as C has them.
//!
//! A handle and a box in its parts are no values to be dropped, and their parts are known in this
//! module alone. So elsewhere a handle is passed on whole or closed, and closing it drops its box.

mod raw_box;
pub(crate) mod site_handle;
