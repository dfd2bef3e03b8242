//! The steps of a run.

use catalogue::Edit;
use cell_core::MessageId;
use lang_core::Lang;
use nego_core::{PriorityList, Scheme};

/// What happens at a site, or between two. Sites are named by place, told summaries and posts by
/// number, all from 0.
#[derive(Debug, Drop)]
pub enum Step {
    /// The site applies the edit. The name in the edit's stamp need not be that of the site.
    Edit {
        site: usize,
        edit: Edit,
    },
    /// One site merges the catalogue of the other.
    Merge {
        into: usize,
        source: usize,
    },
    /// The live labels of a message that the list takes, in its order.
    AskFilter {
        site: usize,
        id: MessageId,
        scheme: Scheme,
        list: PriorityList,
    },
    /// The live label of a message that the list looks up, or that of the default.
    AskLookup {
        site: usize,
        id: MessageId,
        list: PriorityList,
        default: Option<Lang>,
    },
    /// All cells of the site, deletions among them.
    AskCells {
        site: usize,
    },
    /// The site's summary becomes the next told one.
    Tell {
        site: usize,
    },
    /// The site's delta against a told summary becomes the next post.
    Post {
        site: usize,
        told: usize,
    },
    /// The site that told takes the delta of the post.
    Deliver {
        post: usize,
    },
}
