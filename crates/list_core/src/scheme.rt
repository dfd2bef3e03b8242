//! The two schemes of matching (RFC 4647 section 3.3).

/// How ranges match tags.
#[derive(Clone, Copy, Debug, PartialEq, Eq)]
pub enum Scheme {
    /// Basic filtering (RFC 4647 section 3.3.1).
    Basic,
    /// Extended filtering (RFC 4647 section 3.3.2).
    Extended,
}
