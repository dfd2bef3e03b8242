//! The rows of a language-map document, as they were read.

/// The strings of a value; none where it has not the shape of a label.
pub(crate) type Strings = Option<Vec<String>>;

/// The keys of a language map with their values, in byte order.
pub(crate) type Keys = Vec<(String, Strings)>;

/// Names with language maps, or with none where the value is no object, in byte order.
pub(crate) type Rows = Vec<(String, Option<Keys>)>;
