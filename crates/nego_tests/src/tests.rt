//! Examples from the standards and from real clients, and what no contract says.
mod choosing;
mod deciding;
mod fallbacks;
mod faults;
mod fields;
mod filtering;
mod headers;
mod held;
mod lenient;
mod long_lists;
mod looking_up;
mod offering;
mod reading;
mod shortlists;
mod widening;
