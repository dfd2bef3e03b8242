//! The names of an object, as they are read.
ghost use Rattle.std.specs.Prelude.{◌≡◌, ◌<◌, ◌∷◌, None, Some, MatchResult, Option, option_map};
ghost use Rattle.std.specs.Bool.{MatchBool};
ghost use Rattle.json.specs.Token.{begin_object};
ghost use Rattle.json.specs.Json.{read_key};
ghost use Rattle.serde_json.specs.Data.{object};
ghost use Rattle.serde_json.specs.Read.{read};
ghost use Rattle.json_docs.specs.ObjectMembersRead.{NoObject};
ghost use Rattle.json_docs.specs.declared.fault.DocCause.TheVariants.{NotJson};

use crate::fault::DocCause;
use json::{Reader, Token};

/// Whether an object comes first, whose brace is then read.
pub fn begins_object(reader: &mut Reader<'_>) -> bool
    ensures { MatchBool result (reader.old ≡ begin_object ∷ reader.new) (NoObject reader.old) }
{
    matches!(reader.next(), Some(Token::BeginObject))
}

/// The name of the next member, or none at the brace that closes the object.
pub fn next_name<'t>(reader: &mut Reader<'t>) -> Result<Option<&'t str>, DocCause>
    ensures { MatchResult result
        (λ name. read_key reader.old ≡ Some (option_map (λ s. s.now) name, reader.new))
        (λ e. (e ≡ NotJson) × (read_key reader.old ≡ None)) }
{
    match reader.next_key() {
        Ok(name) => Ok(name),
        Err(_) => Err(DocCause::NotJson),
    }
}
