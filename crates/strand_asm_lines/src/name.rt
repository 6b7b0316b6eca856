ghost use Rattle.std.specs.Prelude.{◌≡◌, IsTrue, IfOk};
ghost use Rattle.strand_base.specs.Name.{is_name};

use std::alloc::Global;
use std::fmt;
use std::marker::Model;
use strand_base::OutOfMemory;

/// A name: letters, digits and `_`, not beginning with a digit, which the type keeps.
#[derive(Drop)]
pub struct Name {
    bytes: Vec<u8>,
}

impl Model for Name {
    ghost use Rattle.std.specs.Prelude.{List, ℕ, IsTrue};

    ghost Value = { List ℕ };

    ghost use Rattle.strand_base.specs.Name.{is_name};

    ghost view = { λ s. s.bytes.items };

    ghost invariant = { λ s. IsTrue (is_name s.bytes.items) };
}

impl Name {
    /// The name that a text is.
    pub(crate) fn new(alloc: Global, text: &[u8]) -> Result<Name, OutOfMemory>
        requires { IsTrue (is_name text.now) }
        ensures { IfOk result (λ name. name ≡ text.now) }
    {
        match Vec::from_slice(alloc, text) {
            Ok(bytes) => Ok(Name { bytes }),
            Err(_) => Err(OutOfMemory),
        }
    }

    /// The name as text.
    pub fn as_str(&self) -> &str
        ensures text { result.now ≡ self.now }
        ensures keeps { IsTrue (is_name self.now) }
    {
        match str::from_utf8(&self.bytes) {
            Ok(text) => text,
            Err(_) => "",
        }
    }
}

impl fmt::Debug for Name {
    fn fmt<W: fmt::Write>(&self, f: &mut fmt::Formatter<W>) -> fmt::Result {
        fmt::Debug::fmt(self.as_str(), f)
    }
}
