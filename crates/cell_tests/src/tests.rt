//! Worked examples, limits, texts of refusals, and each call once. All have ample memory.

mod entries;
mod generic;
mod growing_maps;
mod joins;
mod keyed;
mod labels;
mod makers;
mod message_ids;
mod refusals;
mod site_names;
mod stamps;
