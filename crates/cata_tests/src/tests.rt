//! Worked examples, places and order, texts of refusals, and each call once with ample memory.

mod asking;
mod catalogues;
mod equalities;
mod makers;
mod refusals;
mod run_faults;
mod runs;
mod shown;
mod sites;
mod steps;
mod summaries;
mod syncs;
mod words;
