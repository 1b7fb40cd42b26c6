//! Short texts that take no memory.
ghost use Rattle.std.specs.Prelude.{◌≡◌, ◌≤◌, length};

use crate::list::Seq;
use crate::short::Short;

/// A text of at most 35 bytes, as an EDIFACT component of format an..35. Contracts see its bytes.
pub type Name = Short<u8, 35>;

impl Short<u8, 35> {
    /// The bytes, at most 35.
    pub fn bytes(&self) -> &[u8]
        ensures value { result.now ≡ self.now }
        ensures short { length self.now ≤ 35 }
    {
        self.items()
    }

    /// A copy, which takes no memory.
    pub fn copy(&self) -> Name
        ensures { result ≡ self.now }
    {
        Name::of(self.bytes())
    }

    /// A copy of a name that may be missing, as of a class of dangerous goods.
    pub fn copied(name: &Option<Name>) -> Option<Name>
        ensures { result ≡ name.now }
    {
        name.as_ref().map(|name| name.copy())
    }
}

/// A list of names.
pub type NameList = Seq<Name>;
