//! Examples from the standards and from real clients, and what no contract says.
mod bundling;
mod explained;
mod fallbacks;
mod offers;
mod questions;
mod refusals;
mod shares;
mod site;
mod tag_filter;
mod tag_pick;
mod views;
mod widening;
mod words;
mod written;
