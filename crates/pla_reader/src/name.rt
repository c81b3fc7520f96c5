//! Names of inputs and outputs.
ghost use Rattle.std.specs.Prelude.{◌≡◌, ℕ, IfOk, IsTrue, ◌↔◌, All};
ghost use Rattle.pla_reader.specs.Name.{IsName, IsNameByte};

use std::alloc::Global;
use wire_io::fault::NoMemory;

/// Bytes from 33 to 126, at least one.
#[derive(Debug, PartialEq, Eq, Hash, Drop)]
pub struct Name {
    bytes: Vec<u8>,
    ghost named: { IsName bytes.items },
}

/// Whether each byte is one that a name may have.
fn are_name_bytes(bytes: &[u8]) -> bool
    ensures { IsTrue result ↔ All IsNameByte bytes.now }
{
    bytes.iter().all(|b| *b >= 33 && *b <= 126)
}

impl Name {
    ghost use Rattle.std.specs.Prelude.{IfSome, IsSome};
    ghost use Rattle.pla_reader.specs.Names.{bytes_of};

    /// None exactly where the list is empty or has another byte.
    pub fn new(bytes: Vec<u8>) -> Option<Name>
        ensures same { IfSome result (λ name. bytes_of name ≡ bytes.items) }
        ensures named { IsSome result ↔ IsName bytes.items }
    {
        if !bytes.is_empty() && are_name_bytes(&bytes) {
            Some(Name { bytes })
        } else {
            None
        }
    }

    /// The bytes of the name.
    pub fn bytes(&self) -> &[u8]
        ensures same { result.now ≡ bytes_of self.now }
        ensures named { IsName result.now }
    {
        &self.bytes
    }

    /// An equal name.
    pub fn copy(&self, alloc: Global) -> Result<Name, NoMemory>
        ensures { IfOk result (λ name. bytes_of name ≡ bytes_of self.now) }
    {
        Ok(Name {
            bytes: self.bytes.to_vec(alloc)?,
        })
    }
}
