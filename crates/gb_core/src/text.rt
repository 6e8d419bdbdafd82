//! Any text, and lists of texts.
ghost use Rattle.std.specs.Prelude.{◌≡◌, ◌≤◌, length, string_bytes, IfOk};

use crate::row::{Copies, Row};
use crate::short::{MAX_SHORT, ShortText};
use std::alloc::{AllocError, Global};
use std::cmp::Ordering;
use std::fmt;
use std::marker::Model;
use std::rc::RcStr;

/// A text in UTF-8. Contracts view its bytes, and it is ordered by them. Up to 22 bytes are stored
/// inline; copies of a longer text share its bytes.
#[derive(Drop)]
pub struct Text {
    form: Form,
}

// Three words in either form.
const _: () = prove!(size_of::<Text>() == 24);

/// Where the bytes of a text are stored.
#[derive(Drop)]
enum Form {
    Short(ShortText),
    Shared(RcStr),
}

impl Model for Text {
    ghost use Rattle.std.specs.Prelude.{List, ℕ};

    ghost Value = { List ℕ };

    ghost use Rattle.gb_core.specs.Text.{form_bytes};

    ghost view = { λ t. form_bytes t.form };
}

impl Text {
    /// The text with the bytes of a string.
    pub fn new(text: String) -> Result<Text, AllocError>
        ensures { IfOk result (λ made. made ≡ string_bytes text) }
    {
        if text.len() <= MAX_SHORT {
            return Ok(short_text(text.as_str()));
        }
        Ok(Text {
            form: Form::Shared(RcStr::from_string(text)?),
        })
    }

    /// A text of these characters.
    pub fn from_str(alloc: Global, text: &str) -> Result<Text, AllocError>
        ensures { IfOk result (λ made. made ≡ text.now) }
    {
        if text.len() <= MAX_SHORT {
            return Ok(short_text(text));
        }
        Ok(Text {
            form: Form::Shared(RcStr::from_str(alloc, text)?),
        })
    }

    /// An equal text, which shares the bytes of a longer one.
    pub fn copy(&self) -> Result<Text, AllocError>
        ensures { IfOk result (λ copied. copied ≡ self.now) }
    {
        match &self.form {
            Form::Short(text) => Ok(Text {
                form: Form::Short(text.copy()),
            }),
            Form::Shared(text) => Ok(Text {
                form: Form::Shared(text.clone()?),
            }),
        }
    }

    /// Its characters, without a copy.
    pub fn as_str(&self) -> &str
        ensures { result.now ≡ self.now }
    {
        match &self.form {
            Form::Short(text) => text.as_str(),
            Form::Shared(text) => text.as_str(),
        }
    }
}

/// A text of at most 22 bytes.
fn short_text(text: &str) -> Text
    requires { length text.now ≤ 22 }
    ensures { result ≡ text.now }
{
    Text {
        form: Form::Short(ShortText::from_str(text)),
    }
}

/// Both forms are shown alike, as their text.
impl fmt::Debug for Text {
    fn fmt<W: fmt::Write>(&self, f: &mut fmt::Formatter<W>) -> fmt::Result {
        f.debug_struct("Text")
            .field("text", &self.as_str())
            .finish()
    }
}

impl fmt::Display for Text {
    ghost use Rattle.std.specs.Prelude.{Some};

    ghost output = { λ t. Some t };

    fn fmt<W: fmt::Write>(&self, f: &mut fmt::Formatter<W>) -> fmt::Result {
        let text = self.as_str();
        write!(f, "{text}")
    }
}

impl PartialEq for Text {
    ghost use Rattle.std.specs.Prelude.{◌==◌};
    ghost use Rattle.std.specs.Cmp.Lexicographic.{pointwise};
    ghost use Rattle.std.proofs.Common.{rules};
    ghost use Rattle.std.specs.Cmp.Rules.{comparing};

    ghost eq = { pointwise ◌==◌ };

    ghost laws = { Prim.search (comparing, rules) };

    fn eq(&self, other: &Text) -> bool {
        self.as_str() == other.as_str()
    }
}

impl Eq for Text {
    ghost use Rattle.std.proofs.Common.{rules};
    ghost use Rattle.std.specs.Cmp.Rules.{comparing};

    ghost laws = { Prim.search (comparing, rules) };
}

impl PartialOrd for Text {
    ghost use Rattle.std.proofs.Common.{rules};
    ghost use Rattle.std.specs.Cmp.{partial_order_from_own_ties};
    ghost use Rattle.std.specs.Cmp.Lexicographic.{slice_cmp};
    ghost use Rattle.std.specs.Cmp.Rules.{comparing};
    ghost use Rattle.std.specs.Ordering.{nat_cmp, as_partial_cmp};

    ghost partial_cmp = { as_partial_cmp (slice_cmp nat_cmp) };

    ghost laws = { partial_order_from_own_ties (Prim.search (comparing, rules))
        (Prim.search (comparing, rules)) };

    fn partial_cmp(&self, other: &Text) -> Option<Ordering> {
        Some(self.cmp(other))
    }
}

/// Texts are ordered by their bytes.
impl Ord for Text {
    ghost use Rattle.std.proofs.Common.{rules};
    ghost use Rattle.std.specs.Cmp.Lexicographic.{slice_cmp};
    ghost use Rattle.std.specs.Cmp.Rules.{comparing};
    ghost use Rattle.std.specs.Ordering.{nat_cmp};

    ghost cmp = { slice_cmp nat_cmp };

    ghost total = { Prim.search (comparing, rules) };

    ghost matches_partial_cmp = { Prim.search (comparing, rules) };

    ghost matches_eq = { Prim.search (comparing, rules) };

    fn cmp(&self, other: &Text) -> Ordering {
        self.as_str().cmp(other.as_str())
    }
}

/// A list of texts.
pub type Texts = Row<Text>;

impl Copies for Text {
    fn copied(&self, _alloc: Global) -> Result<Text, AllocError> {
        self.copy()
    }
}
