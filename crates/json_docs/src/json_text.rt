//! JSON as text: the range of its numbers, and its values one after another.

pub(crate) mod numbers;
pub(crate) mod object;
pub(crate) mod parts;
pub(crate) mod scanning;
pub(crate) mod text;
