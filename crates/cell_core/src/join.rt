//! What joins: values of which two that agree have a least value above both.

ghost use Rattle.std.specs.Prelude.{◌≡◌, ◌↔◌, IfOk, OnOk, OnErr, IsTrue, IfSome, AllPairs, List};
ghost use Rattle.std.specs.Prelude.{Option};
ghost use Rattle.std.specs.List.Sorted.{IsPermutation};
ghost use Rattle.cell_core.specs.Join.{JoinLaws, IsJoinOf, IsJoinOfAll};

use std::alloc::{AllocError, Global};

/// Values of which two that agree have a least value above both, their join
/// (INRIA RR-7506, 2.2 and 2.3).
///
/// Agreement is reflexive and symmetric, and not transitive. Of values that do not agree nothing
/// is promised.
pub trait Join: Drop {
    /// The two may be joined.
    ghost agree: { Self → Self → Type 0 };

    /// The join of two that agree.
    ghost joined: { Self → Self → Self };

    /// The second is on the way from the first to its join with the third.
    ghost between: { Self → Self → Self → Type 0 };

    /// Whether the two agree. It takes no memory.
    fn agrees(&self, other: &Self) -> bool
        ensures { IsTrue result ↔ agree self.now other.now };

    /// Joins the other value, which has to agree, to this one.
    ///
    /// If memory runs out, this value is between what it was and the join, so that a
    /// repeat gives the join.
    fn join(&mut self, alloc: Global, other: &Self) -> Result<(), AllocError>
        requires { agree self.old other.now }
        ensures ok { OnOk result (self.new ≡ joined self.old other.now) }
        ensures err { OnErr result (between self.old self.new other.now) };

    /// An equal value.
    fn copy(&self, alloc: Global) -> Result<Self, AllocError>
        ensures { IfOk result (λ copied. copied ≡ self.now) };

    /// The laws that agreement, the join and what is between keep.
    ghost laws: { JoinLaws agree joined between };
}

/// Whether each two of the items agree.
///
/// It compares each with each, since agreement is not transitive: it is for callers that want to
/// meet the condition of [`join_all`], on short lists.
pub fn agree_all<J: Join>(items: &[J]) -> bool
    ensures { IsTrue result ↔ AllPairs J.agree items.now }
{
    for i in 0..items.len() {
        for j in i + 1..items.len() {
            if !items[i].agrees(&items[j]) {
                return false;
            }
        }
    }
    true
}

/// The join of items that agree pairwise: above each of them, below all that is above each, and the
/// same for every order. No items have none.
///
/// Call [`agree_all`] where it is not known that the items agree.
pub fn join_all<J: Join>(alloc: Global, items: &[J]) -> Result<Option<J>, AllocError>
    requires { AllPairs J.agree items.now }
    ensures join { IfOk result (IsJoinOfAll J.agree J.joined items.now) }
    // The order of the items does not matter.
    ensures any_order { IfOk result (λ join. (order : List J) (other : Option J) →
        IsPermutation items.now order → IsJoinOfAll J.agree J.joined order other → other ≡ join) }
{
    let Some(first) = items.first() else {
        return Ok(None);
    };
    let mut join = first.copy(alloc)?;
    for i in 1..items.len() {
        join.join(alloc, &items[i])?;
    }
    Ok(Some(join))
}
