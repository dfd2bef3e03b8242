//! Questions of a front end: which language, or which label of a site, a reader gets.
//!
//! - A [`Question`] is answered over a [`SiteIn`], a site in memory or the text of a document:
//!   [`Lookup`], [`Filter`] and [`Reader`] ask for a reader, [`Missing`] and [`Outdated`] for
//!   a translator, and a [`View`] shows the whole site. It is read first, and then answered. A
//!   reader is answered from what an [`Offering`] offers of the site.
//! - An [`OpenSite`] is a site in memory, made or read once, which shares may have in common; its
//!   calls edit it. A refused edit leaves it as it was, but for what [`OpenSite::merge`] and
//!   [`OpenSite::take`] say of out of memory. A [`Change`] is the edit of one label, of such a site
//!   or of a document. [`delta`] and [`changes`] compare a site in memory with another.
//! - [`Lookup::answer_in`] and [`Filter::answer_in`] ask the document of a site where it lies: of a
//!   text of any length they read the rows of one message, which [`message_in`] finds by bisection.
//! - [`pick`] finds a tag for a [`Field`] among tags, one on a line (RFC 4647, section 3.4), and
//!   [`filter_tags`] finds all that the field takes (section 3.3); [`words`] has both of the
//!   arguments of a command.
//! - [`explain`] says of a refusal's number what it means, what causes it and what to do;
//!   [`number_of_code`] is the number of its word.
//! - [`VERSION`] is the version of the command and of the library.
//!
//! Ids, fields and languages are passed as bytes. A refusal is a [`FrontFault`], with its number,
//! and its place where it has one.
//!
//! ```text
//! let (scheme, malformed) = (Scheme::Basic, Malformed::PassedOver);
//! let field = Field { scheme, malformed, widening: Widening::Off, fallbacks: &[],
//!     text: b"da, en;q=0.8" };
//! pick(alloc, field, None, b"en\nfr\n")?               Picked::Matched(b"en")
//! let site = OpenSite::read(alloc, document)?;
//! let offering = Offering::Given(Offer::Public);
//! let asked = Lookup::read(alloc, b"greeting", offering, field, Some(b"fr"))?;
//! asked.text(site.site(), 0)            LabelText::Found { text: "Hello", count: 1 }
//! asked.answer(alloc, SiteIn::Open(site.site()))?.text    matched en ["Hello"]
//! ```
//!
//! The laws of a pick are in [`laws`].
#![tactic(auto)]

mod answer;
mod arrivals;
mod ask;
mod change;
mod editing;
mod exchange;
mod fault;
pub mod laws;
mod offering;
mod open_site;
mod preferences;
mod reader;
mod refusal;
mod spare;
mod tag_filter;
mod tag_pick;
mod tags;
mod translate;
mod version;
pub mod words;
mod written;

pub use answer::{Answer, LabelText, Outcome};
pub use ask::{Filter, Lookup, Question, SiteIn};
pub use change::Change;
pub use exchange::{View, delta};
pub use fault::FrontFault;
pub use offering::{Offered, Offering};
pub use open_site::OpenSite;
pub use preferences::{Field, Preferences};
pub use reader::Reader;
pub use refusal::{Refusal, explain, number_of_code};
pub use tag_filter::filter_tags;
pub use tag_pick::{Picked, pick};
pub use translate::{Missing, Outdated, changes};
pub use version::{VERSION, VERSION_NUMBER};
pub use written::message_in;
