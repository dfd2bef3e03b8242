//! Laws of language-map documents. Each function's contract is one; the functions do nothing.
ghost use Rattle.map_docs.specs.MapsLaws.{OneReading, ReadsBack};

/// A document reads as one list of labels and no other.
pub fn one_reading()
    ensures { OneReading }
{}

/// The document of labels in ascending order of key reads as these labels.
pub fn reads_back()
    ensures { ReadsBack }
{}
