//! Laws of JSON texts. Each function's contract is one; the functions do nothing.
ghost use Rattle.std.specs.Prelude.{◌≡◌, ℕ, List, Some};
ghost use Rattle.json.specs.Json as json;
ghost use Rattle.serde_json.specs.Data.{Data, Members, no_members};
ghost use Rattle.serde_json.specs.Find.{get_member};
ghost use Rattle.serde_json.specs.Read.{of_json, of_members};
ghost use Rattle.json_docs.specs.ObjectLastMember.{HasNo, and_then};

/// Of an object's members that have one name the last counts.
pub fn the_last_member_counts()
    ensures { (name : List ℕ) (value : json.Json) (before after : json.Members) (d : Data)
        (read : Members) → of_json value ≡ Some d → HasNo name after
        → of_members (and_then before (json.member name value after)) no_members ≡ Some read
        → get_member name read ≡ Some d }
{}
