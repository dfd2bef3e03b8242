//! Laws over the definitions alone, each the contract of a function that does nothing.
ghost use Rattle.std.specs.Prelude.{◌↔◌, ℕ, List, drop};
ghost use Rattle.cata_core.specs.Site.{SiteState};
ghost use Rattle.catalogue.specs.Entries.{Entries};
ghost use Rattle.row_docs.specs.declared.kind.Kind.TheVariants as kind;
ghost use Rattle.site_docs.specs.Plain.{IsPlainText};
ghost use Rattle.text_docs.specs.Message.{IsCompactSite};
ghost use Rattle.text_docs.specs.Row.{ReadsAsRow};
ghost use Rattle.text_docs.specs.Rows.{IsRowEnd};

/// In a written document a row but the first begins exactly where `],["ID","` and the first byte of
/// a language are read: after the bracket that ends the row before.
pub fn a_row_begins_where_it_reads_so()
    ensures { (text name : List ℕ) (cells : Entries) (place : ℕ)
        → IsPlainText kind.Site text name cells
        → IsRowEnd text name cells place ↔ ((id : List ℕ) × ReadsAsRow (drop place text) id) }
{}

/// What is written for a site, with its last line feed or without, is a document whose rows have no
/// blanks.
pub fn a_written_document_has_no_blanks()
    ensures { (text : List ℕ) (site : SiteState)
        → IsPlainText kind.Site text site.name site.cells → IsCompactSite text site }
{}
