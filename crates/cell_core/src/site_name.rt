//! The names of sites.

ghost use Rattle.std.specs.Prelude.{◌≡◌, ◌↔◌, IsTrue, MatchResult, All, nat_eq, Some, refl};
ghost use Rattle.std.specs.Fmt.{padded};
ghost use Rattle.std.specs.Ordering.{nat_cmp};
ghost use Rattle.std.specs.Cmp as laws_of;
ghost use Rattle.std.specs.Cmp.Lexicographic.{slice_cmp, pointwise, nat_list_cmp_total};
ghost use Rattle.std.specs.Cmp.Lexicographic.{nat_list_eq_equiv, texts_po};
ghost use Rattle.cell_core.specs.SiteName.{is_site_byte, IsSiteName, padded_name};
ghost use Rattle.cell_core.specs.inner.KeyTextOrder.{texts_tie};

use crate::fault::CellFault;
use crate::zero_padded::{before_zeros, zero_padded};
use std::cmp::Ordering;
use std::fmt;
use std::marker::Model;

/// The most bytes of a name.
const MAX_BYTES: usize = 16;

/// How many digits the name of a numbered site has.
const DIGITS: usize = 10;

/// The name of a site: 1 to 16 bytes, each of them `a` to `z`, `0` to `9` or `-`.
///
/// Names are ordered by their bytes, a proper prefix below the longer name.
#[derive(Clone, Copy)]
pub struct SiteName {
    // The text, padded with zero bytes.
    bytes: [u8; MAX_BYTES],
}

impl Model for SiteName {
    ghost use Rattle.std.specs.Prelude.{List, ℕ};
    ghost use Rattle.cell_core.specs.SiteName.{KeepsName};
    ghost use Rattle.cell_core.specs.ZeroPadded.{zero_padded, before_zeros};

    ghost Value = { List ℕ };

    ghost view = { λ n. before_zeros n.bytes };

    ghost invariant = { λ n. KeepsName n.bytes };

    ghost inverse = { λ text. record { bytes = zero_padded 16 text } };

    ghost inverse_ok = { λ n kept i. record { bytes = kept.zeros i } };
}

impl SiteName {
    ghost use Rattle.cell_core.specs.Fault.{RefusesName};

    /// The name with this text.
    ///
    /// Refused by [`CellFault::SiteName`] (27) where the text is no site name.
    pub fn new(text: &str) -> Result<SiteName, CellFault>
        ensures { MatchResult result (λ name. IsSiteName text.now × (name ≡ text.now))
            (RefusesName text.now) }
    {
        let bytes = text.as_bytes();
        if bytes.is_empty() || bytes.len() > MAX_BYTES || !are_site_bytes(bytes) {
            return Err(CellFault::SiteName);
        }
        Ok(SiteName {
            bytes: zero_padded(bytes),
        })
    }

    /// The name of a numbered site: the decimal digits of its number, with zeros in front to ten
    /// digits.
    pub fn of_number(n: u32) -> SiteName
        ensures { result ≡ padded_name n }
    {
        let mut digits = [b'0'; DIGITS];
        let mut rest = n;
        for at in (0..DIGITS).rev() {
            digits[at] = b'0' + (rest % 10) as u8;
            rest /= 10;
        }
        SiteName {
            bytes: zero_padded(&digits),
        }
    }

    /// The text of the name, which is one that a name may have.
    pub fn as_str(&self) -> &str
        ensures text { result.now ≡ self.now }
        ensures name { IsSiteName self.now }
    {
        before_zeros(&self.bytes)
    }
}

impl fmt::Debug for SiteName {
    fn fmt<W: fmt::Write>(&self, f: &mut fmt::Formatter<W>) -> fmt::Result {
        fmt::Debug::fmt(self.as_str(), f)
    }
}

/// Shows the text of the name, padded and cut as the width and the precision of its place say.
impl fmt::Display for SiteName {
    ghost output = { λ name. Some name };

    ghost styled_output = { λ name spec. Some (padded spec name) };

    fn fmt<W: fmt::Write>(&self, f: &mut fmt::Formatter<W>) -> fmt::Result {
        f.pad(self.as_str())
    }
}

/// Site names are equal where their bytes are.
impl PartialEq for SiteName {
    ghost eq = { pointwise nat_eq };

    ghost laws = { laws_of.partial_equiv_from_equiv nat_list_eq_equiv };

    fn eq(&self, other: &SiteName) -> bool {
        self.bytes == other.bytes
    }
}

impl Eq for SiteName {
    ghost laws = { nat_list_eq_equiv };
}

/// Any two site names are ordered, as their bytes are.
impl PartialOrd for SiteName {
    ghost partial_cmp = { λ x y. Some (slice_cmp nat_cmp x y) };

    ghost laws = { texts_po };

    fn partial_cmp(&self, other: &SiteName) -> Option<Ordering> {
        Some(self.cmp(other))
    }
}

/// Site names are ordered as their bytes are.
impl Ord for SiteName {
    ghost cmp = { slice_cmp nat_cmp };

    ghost total = { nat_list_cmp_total };

    ghost matches_partial_cmp = { λ x y. refl };

    ghost matches_eq = { texts_tie };

    fn cmp(&self, other: &SiteName) -> Ordering {
        self.bytes.cmp(&other.bytes)
    }
}

/// Whether each byte is allowed in a name.
fn are_site_bytes(bytes: &[u8]) -> bool
    ensures { IsTrue result ↔ All (λ b. IsTrue (is_site_byte b)) bytes.now }
{
    bytes.iter().all(|&b| is_site_byte(b))
}

/// Whether the byte is allowed in a name.
#[tactic(auto, unfolding(crate::specs::SiteName::is_site_byte))]
fn is_site_byte(b: u8) -> bool
    ensures { result ≡ is_site_byte b }
{
    b.is_ascii_lowercase() || b.is_ascii_digit() || b == b'-'
}
