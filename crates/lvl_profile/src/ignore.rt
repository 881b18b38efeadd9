//! The set of what is ignored, and its text.
ghost use Rattle.std.specs.Prelude.{◌≡◌, ◌==◌, IfOk, IfErr, map};
ghost use Rattle.std.specs.List.{slice_split};
ghost use Rattle.lvl_profile.specs.Ignored.{comma, everything, nothing, union, union_of, word_set, IsText};
ghost use Rattle.lvl_profile.specs.declared.ignore.Ignore.{Ignore as Ignored};
ghost use Rattle.lvl_refusal.specs.Refused.{Says};

use lvl_refusal::Cause;
use std::alloc::{AllocError, Global};
use thiserror::Error;

/// What a reader reads and ignores instead of refusing it. Nothing of it draws anything.
#[derive(Clone, Copy, Debug, PartialEq, Eq)]
pub struct Ignore {
    /// Properties of elements, cells and files. GDSII: PROPATTR with PROPVALUE, and ATTRTABLE. OASIS:
    /// PROPNAME, PROPSTRING and PROPERTY.
    pub properties: bool,
    /// Texts. OASIS: TEXTSTRING and TEXT. A TEXT of GDSII is always read, and draws nothing.
    pub texts: bool,
    /// Names and attributes that concern no shape. GDSII: LIBDIRSIZE, SRFNAME, LIBSECUR, REFLIBS, FONTS,
    /// GENERATIONS, FORMAT 0, STRCLASS, ELFLAGS and PLEX. OASIS: LAYERNAME and XNAME.
    pub names: bool,
    /// OASIS: groups of seven zero bits at the end of an unsigned integer, more than it needs.
    pub padding: bool,
    /// Points of paths that equal the point before. Without them a path draws the same.
    pub points: bool,
}

/// Why a text names nothing that can be ignored (own rule).
#[derive(Clone, Copy, Debug, Drop, PartialEq, Eq, Error)]
pub enum IgnoreFault {
    /// The text is not one or more of the words `properties`, `texts`, `names`, `padding`, `points` and
    /// `all`, joined by commas.
    #[error("IgnoreText")]
    IgnoreText,
}

impl Ignore {
    /// Nothing is ignored: all that the reader doesn't use is refused.
    pub const NOTHING: Ignore = Ignore {
        properties: false,
        texts: false,
        names: false,
        padding: false,
        points: false,
    };

    /// Everything that can be ignored is ignored.
    pub const EVERYTHING: Ignore = Ignore {
        properties: true,
        texts: true,
        names: true,
        padding: true,
        points: true,
    };

    /// Reads words joined by commas, each of which adds what it names; `all` names everything. A word
    /// may be repeated (own rule).
    pub fn read(alloc: Global, text: &str) -> Result<Ignore, Cause<IgnoreFault>>
        ensures ok { IfOk result (IsText text.now) }
        ensures err { IfErr result (λ refusal. Says refusal (λ fault. (ignore : Ignored) → ¬ IsText text.now ignore)) }
    {
        let words = words_of(alloc, text)?;
        match union_of(&words) {
            Some(ignore) => Ok(ignore),
            None => Err(Cause::Breach(IgnoreFault::IgnoreText)),
        }
    }

    /// The union of two sets.
    fn with(self, more: Ignore) -> Ignore
        ensures { result ≡ union self more }
    {
        Ignore {
            properties: self.properties || more.properties,
            texts: self.texts || more.texts,
            names: self.names || more.names,
            padding: self.padding || more.padding,
            points: self.points || more.points,
        }
    }
}

/// The parts of a text between commas.
fn words_of<'a>(alloc: Global, text: &'a str) -> Result<Vec<&'a str>, AllocError>
    ensures { IfOk result (λ words. map (λ w. w.now) words.items ≡ slice_split (λ b. b == comma) text.now) }
{
    text.split(',').collect(alloc)
}

/// The union of what the words name; `None` if one of them names nothing.
fn union_of(words: &[&str]) -> Option<Ignore>
    ensures { result ≡ union_of nothing (map (λ w. w.now) words.now) }
{
    let mut ignore = Ignore::NOTHING;
    for word in words {
        ignore = ignore.with(named(word)?);
    }
    Some(ignore)
}

/// The set that a word names; `None` if it is no such word.
fn named(word: &str) -> Option<Ignore>
    ensures { result ≡ word_set word.now }
{
    match word {
        "properties" => Some(Ignore {
            properties: true,
            ..Ignore::NOTHING
        }),
        "texts" => Some(Ignore {
            texts: true,
            ..Ignore::NOTHING
        }),
        "names" => Some(Ignore {
            names: true,
            ..Ignore::NOTHING
        }),
        "padding" => Some(Ignore {
            padding: true,
            ..Ignore::NOTHING
        }),
        "points" => Some(Ignore {
            points: true,
            ..Ignore::NOTHING
        }),
        "all" => Some(Ignore::EVERYTHING),
        _ => None,
    }
}
