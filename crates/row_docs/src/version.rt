//! The versions of documents.
ghost use Rattle.std.specs.Prelude.{◌≡◌, ◌≢◌, ◌⊎◌, Some, MatchOption};

/// How a document names sites: by numbers in version 1, by names in version 2.
#[derive(Clone, Copy, Debug)]
pub enum Version {
    One,
    Two,
}

impl Version {
    ghost use Rattle.row_docs.specs.Headers.{version_by};

    /// The version with this number: there are 1 and 2.
    pub fn of_number(number: u64) -> Option<Version>
        ensures { MatchOption result ((number ≢ 1) × (number ≢ 2))
            (λ version. ((number ≡ 1) ⊎ (number ≡ 2)) × (version ≡ version_by (Some number))) }
    {
        match number {
            1 => Some(Version::One),
            2 => Some(Version::Two),
            _ => None,
        }
    }
}
