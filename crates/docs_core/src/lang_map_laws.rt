//! Laws of language-map documents.

pub use map_docs::laws::{one_reading, reads_back};
