//! The irregular tags (RFC 5646 section 2.1).
ghost use Rattle.std.specs.Prelude.{◌≡◌};
ghost use Rattle.std.specs.List.{list_any};
ghost use Rattle.std.specs.Str.{bytes_eq, str_to_ascii_lowercase};
ghost use Rattle.lang_core.specs.Grammar.{is_irregular};

/// The irregular tags (RFC 5646 section 2.1), in lower case.
const IRREGULAR: [&[u8]; 17] = [
    b"en-gb-oed",
    b"i-ami",
    b"i-bnn",
    b"i-default",
    b"i-enochian",
    b"i-hak",
    b"i-klingon",
    b"i-lux",
    b"i-mingo",
    b"i-navajo",
    b"i-pwn",
    b"i-tao",
    b"i-tay",
    b"i-tsu",
    b"sgn-be-fr",
    b"sgn-be-nl",
    b"sgn-ch-de",
];

/// Whether the text is an irregular tag, in any case.
#[tactic(auto, unfolding(crate::specs::Grammar::is_irregular))]
pub(crate) fn is_irregular(text: &[u8]) -> bool
    ensures { result ≡ is_irregular (str_to_ascii_lowercase text.now) }
{
    is_among(&IRREGULAR, text)
}

/// Whether the text is among the tags, in any case.
fn is_among(tags: &[&[u8]], text: &[u8]) -> bool
    ensures { let lower = str_to_ascii_lowercase text.now in
        result ≡ list_any (λ tag. bytes_eq (str_to_ascii_lowercase tag.now) lower) tags.now }
{
    tags.iter().any(|tag| tag.eq_ignore_ascii_case(text))
}
