//! The paths of records.

ghost use Rattle.std.specs.Prelude.{◌≡◌, IfOk, IsTrue, is_some};
ghost use Rattle.ll_lines.specs.{Paths.path_of, Readers.Gives};
ghost use Rattle.ll_trace.specs.Members.{path_in};

use ll_lines::Cause;
use ll_tree::path_ok;
use std::alloc::{AllocError, Global};
use std::marker::Model;

/// A path as a record has it: `/`, or names with one `/` before each. Contracts see its bytes.
#[derive(Debug, Drop)]
pub struct PathText {
    text: String,
}

impl Model for PathText {
    ghost use Rattle.std.specs.Prelude.{List, ℕ, string_bytes};

    ghost Value = { List ℕ };

    ghost view = { λ path. string_bytes path.text };

    ghost use Rattle.std.specs.Prelude.{IsTrue, is_some};
    ghost use Rattle.ll_lines.specs.Paths.{path_of};

    ghost invariant = { λ path. IsTrue (is_some (path_of (string_bytes path.text))) };
}

impl PathText {
    /// The path of a text, or `BadPath` if the text does not have the shape of one.
    #[tactic(auto, unfolding(crate::specs::Members::path_in))]
    pub(crate) fn read(alloc: Global, text: &str) -> Result<PathText, Cause>
        ensures { Gives (λ path. path) result (path_in text.now) }
    {
        if !path_ok(text) {
            return Err(Cause::BadPath);
        }
        let text = String::from_str(alloc, text)?;
        Ok(PathText { text })
    }

    /// A copy of the path.
    pub(crate) fn try_clone(&self, alloc: Global) -> Result<PathText, AllocError>
        ensures { IfOk result (λ copy. copy ≡ self.now) }
    {
        let text = String::from_str(alloc, self.text.as_str())?;
        Ok(PathText { text })
    }

    /// The path's text.
    pub fn as_str(&self) -> &str
        ensures text { result.now ≡ self.now }
        ensures shape { IsTrue (is_some (path_of self.now)) }
    {
        self.text.as_str()
    }
}

/// The second path of an operation that has two, in memory of its own, so that it makes the records of other
/// operations no larger. Contracts see its bytes.
#[derive(Debug, Drop)]
pub struct SecondPath {
    path: Box<PathText>,
}

impl Model for SecondPath {
    ghost use Rattle.std.specs.Prelude.{List, ℕ};

    ghost Value = { List ℕ };

    ghost view = { λ second. second.path.value };
}

impl SecondPath {
    /// The path of a text, or `BadPath` if the text does not have the shape of one.
    pub(crate) fn read(alloc: Global, text: &str) -> Result<SecondPath, Cause>
        ensures { Gives (λ second. second) result (path_in text.now) }
    {
        let path = PathText::read(alloc, text)?;
        let path = Box::new(alloc, path)?;
        Ok(SecondPath { path })
    }

    /// The path.
    pub fn path(&self) -> &PathText
        ensures { result.now ≡ self.now }
    {
        &self.path
    }
}
