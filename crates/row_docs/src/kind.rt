//! The documents that have a kind, and the names of their members.
ghost use Rattle.std.specs.Prelude.{◌≡◌};

/// The kind of a document, of those that have one.
#[derive(Clone, Copy, Debug, PartialEq, Eq)]
pub enum Kind {
    Site,
    Delta,
    Summary,
    Script,
}

/// What a member of a document with a kind is.
#[derive(Clone, Copy, Debug)]
pub enum Member {
    Kind,
    Version,
    /// The name of the site, of the addressee or of the owner, or the number of sites.
    Subject,
    Rows,
    Other,
}

impl Kind {
    ghost use Rattle.row_docs.specs.Kinds.{kind_text, member_of, rows_of, subject_of};

    /// What the member `kind` says.
    pub fn text(self) -> &'static str
        ensures { result.now ≡ kind_text self }
    {
        match self {
            Kind::Site => "site",
            Kind::Delta => "delta",
            Kind::Summary => "summary",
            Kind::Script => "script",
        }
    }

    /// The member with this name.
    pub fn member(self, name: &str) -> Member
        ensures { result ≡ member_of self name.now }
    {
        if name == "kind" {
            Member::Kind
        } else if name == "version" {
            Member::Version
        } else if name == self.subject() {
            Member::Subject
        } else if name == self.rows() {
            Member::Rows
        } else {
            Member::Other
        }
    }

    /// The name of the member that names a site, or says how many there are.
    pub fn subject(self) -> &'static str
        ensures { result.now ≡ subject_of self }
    {
        match self {
            Kind::Site => "site",
            Kind::Delta => "to",
            Kind::Summary => "owner",
            Kind::Script => "sites",
        }
    }

    /// The name of the member that has the rows.
    fn rows(self) -> &'static str
        ensures { result.now ≡ rows_of self }
    {
        match self {
            Kind::Site | Kind::Delta => "cells",
            Kind::Summary => "stamps",
            Kind::Script => "steps",
        }
    }
}
