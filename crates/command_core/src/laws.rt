//! Laws over the definitions alone, each the contract of a function that does nothing.
ghost use Rattle.std.specs.Prelude.{◌++◌, List, ℕ};
ghost use Rattle.cata_core.specs.Site.{SiteState};
ghost use Rattle.site_docs.specs.Reading.{IsSiteText, ReadsAsSite};
ghost use Rattle.row_docs.specs.WritingTexts.{IsOneLine};
ghost use Rattle.map_docs.specs.MapsLabels.{AreLangMaps};
ghost use Rattle.map_docs.specs.Maps.{Labelled};
ghost use Rattle.docs_core.specs.Lines.{AreDocuments};

/// A text that was written may come before any other document in an input: the input is cut right
/// after it, and its document reads as it does alone.
pub fn a_written_text_is_a_document_of_the_input()
    ensures site { (site : SiteState) (text rest : List ℕ) → IsSiteText site text
        → (document : List ℕ) × AreDocuments (text ++ rest) document rest
        × ReadsAsSite document site }
    ensures labels { (labels : List Labelled) (text rest : List ℕ) → IsOneLine text
        → AreLangMaps text labels
        → (document : List ℕ) × AreDocuments (text ++ rest) document rest
        × AreLangMaps document labels }
{}
