//! The table of refusals: what each number means, what causes it, and what to do.
ghost use Rattle.std.specs.Prelude.{◌≡◌, ◌↔◌, ◌<◌, IfSome, IsSome};
ghost use Rattle.std.specs.Prelude.{length, map, option_map, position};
ghost use Rattle.std.specs.Str.{bytes_eq};
ghost use Rattle.front_core.specs.Refusal.{IsRefusalNumber, number_of_code, refusal_of};
ghost use Rattle.front_core.specs.Refusal.{refusal_texts, refusals};

/// A refusal, explained. Each text but the word is a line without an end mark; words in capitals
/// are values of the refusal. `docs/REFUSALS.md` has the same texts.
#[derive(Clone, Copy)]
pub struct Refusal {
    /// The word for it, of small letters, digits and hyphens, which is its own.
    pub code: &'static str,
    /// What the command prints after `refused N: `, but without the timestamp for 13 (duplicate
    /// timestamp), and without the site for 15 (wrong addressee).
    pub text: &'static str,
    /// What is wanted.
    pub meaning: &'static str,
    /// What there is instead, and where it mostly comes from.
    pub cause: &'static str,
    /// What to do.
    pub remedy: &'static str,
}

/// The refusals 1 to 31, in their order. What 1 to 7 mean is what `LangFault::meaning` says.
static REFUSALS: [Refusal; 31] = [
    // 1
    Refusal {
        code: "tag-empty",
        text: "tag is empty",
        meaning: "a tag has at least one byte",
        cause: "the tag is empty",
        remedy: "write a tag, or @none for no language",
    },
    // 2
    Refusal {
        code: "tag-too-long",
        text: "tag is over 255 bytes",
        meaning: "a tag has at most 255 bytes",
        cause: "the tag is longer; the limit is our own",
        remedy: "shorten it; no real tag is this long",
    },
    // 3
    Refusal {
        code: "subtag-malformed",
        text: "subtag at OFFSET",
        meaning: "each subtag is 1 to 8 letters or digits, with a hyphen between two",
        cause: "the subtag that begins at OFFSET is empty, too long, or has another byte: mostly \
            an underscore (fr_CA), a blank, or a doubled or last hyphen",
        remedy: "look there; in language maps check also that no message is where a language \
            belongs",
    },
    // 4
    Refusal {
        code: "tag-malformed",
        text: "tag is not well-formed",
        meaning: "a language comes first, then script, region, variants, extensions, private use",
        cause: "each subtag is well-formed, but their order is not that of RFC 5646 section 2.1",
        remedy: "put the subtags in that order",
    },
    // 5
    Refusal {
        code: "range-empty",
        text: "range is empty",
        meaning: "a range has at least one byte",
        cause: "the range is empty",
        remedy: "write a range; * is any language",
    },
    // 6
    Refusal {
        code: "range-too-long",
        text: "range is over 255 bytes",
        meaning: "a range has at most 255 bytes",
        cause: "the range is longer; the limit is our own",
        remedy: "shorten it; no real range is this long",
    },
    // 7
    Refusal {
        code: "range-malformed",
        text: "range subtag at OFFSET",
        meaning: "each subtag is * or 1 to 8 letters, after the first also digits; in a basic \
            range * is alone",
        cause: "the subtag that begins at OFFSET is not allowed there",
        remedy: "look there; extended ranges take * anywhere",
    },
    // 8
    Refusal {
        code: "field-too-long",
        text: "field is over 65535 bytes",
        meaning: "a field has at most 65535 bytes",
        cause: "an Accept-Language field or a list of ranges is longer; the limit is our own, and \
            no browser sends one this long",
        remedy: "refuse the request, or go on as if the field were *",
    },
    // 9
    Refusal {
        code: "field-malformed",
        text: "field element at OFFSET",
        meaning: "each element of a field is a range, with or without a weight (RFC 9110 sections \
            12.4.2 and 12.5.4)",
        cause: "the element that begins at OFFSET is malformed: mostly its weight is over 1, has \
            four decimals or a blank around =, or its range has an underscore for a hyphen",
        remedy: "look there; a front end may go on as if the field were *, or skip what is \
            malformed with --lenient",
    },
    // 10
    Refusal {
        code: "id-invalid",
        text: "message id",
        meaning: "a message id has 1 to 128 bytes, no control character, and no @ first",
        cause: "the id is empty, too long, not UTF-8, or has such a character; often a whole text \
            is used as an id",
        remedy: "give the message another id",
    },
    // 11
    Refusal {
        code: "text-too-long",
        text: "text INDEX is over 65535 bytes",
        meaning: "each text of a label has at most 65535 bytes",
        cause: "the text INDEX is longer; the limit is our own",
        remedy: "cut the text in two",
    },
    // 12
    Refusal {
        code: "text-count",
        text: "label has COUNT texts",
        meaning: "a label has 1 to 64 texts",
        cause: "the label has COUNT texts",
        remedy: "put at most 64 texts; if there is none, delete the label",
    },
    // 13
    Refusal {
        code: "duplicate-timestamp",
        text: "one stamp is used for two different edits, cell PLACE",
        meaning: "two different edits of a message in a language have two timestamps",
        cause: "cell PLACE of the receiving site is the first whose timestamp another edit has \
            too: two sites have one name, or a site was put back to an older copy",
        remedy: "edit the message in that language again, which ends the conflict; if two sites \
            have one name, rename one; if a site was put back, it must send a new summary",
    },
    // 14
    Refusal {
        code: "clock-exhausted",
        text: "clock is spent",
        meaning: "an edit has a timestamp later than all that its site has",
        cause: "no later timestamp is left: a time far ahead was merged",
        remedy: "drop the cells of that time from all sites at once, as docs/RECIPES.md says under \
            A time far ahead",
    },
    // 15
    Refusal {
        code: "wrong-addressee",
        text: "delta is for another site",
        meaning: "a delta is applied to the site that it was made for",
        cause: "the delta was made for the site ADDRESSEE",
        remedy: "apply it to that site",
    },
    // 16
    Refusal {
        code: "unknown-site",
        text: "step STEP names no site",
        meaning: "a step of a script names a site of the script",
        cause: "step STEP names a site that is not there",
        remedy: "count sites from 0",
    },
    // 17
    Refusal {
        code: "unknown-post",
        text: "step STEP names no post",
        meaning: "a step of a script names what an earlier step sent or posted",
        cause: "step STEP names a summary that was not sent before it, or a post that was not made \
            before it",
        remedy: "count sent summaries and posts from 0",
    },
    // 18
    Refusal {
        code: "not-utf8",
        text: "not UTF-8 at OFFSET",
        meaning: "a document is UTF-8 (RFC 3629)",
        cause: "the bytes from OFFSET on are not UTF-8; OFFSET counts from the document's first \
            byte",
        remedy: "look there, or convert the file (iconv -f LATIN1 -t UTF-8, -f UTF-16)",
    },
    // 19
    Refusal {
        code: "not-json",
        text: "not JSON",
        meaning: "a document is one JSON text (RFC 8259) of at most 127 levels, without a number \
            too large for a float",
        cause: "mostly a document was forgotten or cut, two came in place of one, document 1 is on \
            several lines, or a byte order mark comes first",
        remedy: "jq empty FILE finds the place; if it finds none, check that each document is \
            where the command reads it",
    },
    // 20
    Refusal {
        code: "wrong-shape",
        text: "shape",
        meaning: "a document and its rows have the form of the kind that is read",
        cause: "mostly language maps in place of a site; or a missing or unknown member, a number \
            in place of a string, or a fraction",
        remedy: "check that each document is of the kind that is read there (jq -c .kind; language \
            maps have none), then compare it with docs/FORMATS.md",
    },
    // 21
    Refusal {
        code: "wrong-order",
        text: "cell order",
        meaning: "rows ascend by id and then by language, in byte order",
        cause: "the key of the row does not come after that of the row before",
        remedy: "sort the rows, and keep one of each key",
    },
    // 22
    Refusal {
        code: "repeated-language",
        text: "language repeated",
        meaning: "the languages of a message differ, without regard to case",
        cause: "two keys of one language map differ at most in case",
        remedy: "keep one of them",
    },
    // 23
    Refusal {
        code: "too-large",
        text: "document is over 67108864 bytes",
        meaning: "a command reads at most 67108864 bytes, all its documents together",
        cause: "the input is longer; the limit is our own",
        remedy: "split language maps; if a sync of two sites is refused, exchange deltas; keep a \
            large site in parts (docs/SCALING.md)",
    },
    // 24
    Refusal {
        code: "read-error",
        text: "read fault",
        meaning: "the input is read to its end",
        cause: "the input gave an error: it is a folder or closed, a disk or network fails, or it \
            is a non-blocking pipe with nothing in it yet",
        remedy: "cat < FILE says why",
    },
    // 25
    Refusal {
        code: "write-error",
        text: "write fault",
        meaning: "the output takes all that is written",
        cause: "the output gave an error or took no byte: the disk is full, the reader went away, \
            or it is a non-blocking pipe that is full; a first part of the text may be written",
        remedy: "cat FILE > OUT says why",
    },
    // 26
    Refusal {
        code: "out-of-memory",
        text: "out of memory",
        meaning: "there is memory for what is asked",
        cause: "an allocation was refused",
        remedy: "try again with more memory, or a higher ulimit -v; nothing was lost",
    },
    // 27
    Refusal {
        code: "site-name-invalid",
        text: "site name",
        meaning: "a site name has 1 to 16 bytes of a to z, 0 to 9 and -",
        cause: "the name is empty, too long, or has another byte, such as a capital, a dot or an \
            underscore",
        remedy: "give the site another name",
    },
    // 28
    Refusal {
        code: "unknown-version",
        text: "version unknown",
        meaning: "the version of a document is 1 or 2",
        cause: "the document is of the right kind, but a later program made it",
        remedy: "use that program",
    },
    // 29
    Refusal {
        code: "clock-ahead",
        text: "time is ahead",
        meaning: "no row has a time after the limit",
        cause: "the time of row R is after that of --not-after: a clock runs ahead, or somebody \
            made the time up",
        remedy: "set the clock right, and drop the cells of that time where they come from, as \
            docs/RECIPES.md says under A time far ahead",
    },
    // 30
    Refusal {
        code: "own-edit-missing",
        text: "an edit of this site is missing here",
        meaning: "a site has each edit that it made, or a later one of that label",
        cause: "row R is an edit that the receiving site made itself and lacks: the site was put \
            back to an older copy, or another site has its name",
        remedy: "before the next edit apply what every other site has, without --check-own; if two \
            sites have one name, give one of them another",
    },
    // 31
    Refusal {
        code: "fallback-malformed",
        text: "fallback at OFFSET",
        meaning: "a table of fallbacks has elements TAG=TAG between commas, each left tag once",
        cause: "the element that begins at OFFSET is no TAG=TAG of well-formed tags, or an earlier \
            one has its left tag",
        remedy: "look there; write the tags with hyphens, and keep one element of each left tag",
    },
];

/// The refusal of a number, from 1 to 31; other numbers have none.
///
/// ```text
/// explain(27)?.meaning  "a site name has 1 to 16 bytes of a to z, 0 to 9 and -"
/// explain(32)           None
/// ```
pub fn explain(number: u8) -> Option<Refusal>
    ensures number { IsSome result ↔ IsRefusalNumber number }
    ensures texts { option_map refusal_texts result ≡ refusal_of number }
{
    if number == 0 {
        return None;
    }
    match table().get(usize::from(number - 1)) {
        Some(refusal) => Some(*refusal),
        None => None,
    }
}

/// The number of the refusal that has this word, as `clock-ahead`.
pub fn number_of_code(code: &str) -> Option<u8>
    ensures { result ≡ number_of_code code.now }
{
    match place_of(table(), code) {
        Some(place) => Some(place as u8 + 1),
        None => None,
    }
}

/// The table.
fn table() -> &'static [Refusal]
    ensures texts { map refusal_texts result.now ≡ refusals }
    ensures count { length result.now ≡ 31 }
{
    REFUSALS.as_slice()
}

/// The place of the first refusal with this word.
fn place_of(table: &[Refusal], code: &str) -> Option<usize>
    ensures place { result ≡ position (λ it. bytes_eq it.code.now code.now) table.now }
    ensures within { IfSome result (λ place. place < length table.now) }
{
    table.iter().position(|refusal| refusal.code == code)
}
