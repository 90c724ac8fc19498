// Bytes for Saved, gathered until there are enough for one write.
ghost use Rattle.std.specs.Prelude.{◌≤◌};
ghost use Rattle.image_writer.specs.declared.gathered.TheConstants.{PIECE};

use std::marker::Model;

/// How many bytes are gathered at most.
pub(crate) const PIECE: usize = 16_384;

/// Bytes that are to be put to Saved, one after the other.
#[derive(Drop)]
pub struct Gathered {
    bytes: [u8; PIECE],
    len: usize,
}

impl Model for Gathered {
    ghost use Rattle.std.specs.Prelude.{◌≤◌, List, ℕ, take};
    ghost use Rattle.image_writer.specs.declared.gathered.TheConstants.{PIECE};

    ghost Value = { List ℕ };

    ghost view = { λ g. take g.len g.bytes };

    ghost invariant = { λ g. g.len ≤ PIECE };
}

impl Gathered {
    ghost use Rattle.std.specs.Prelude.{◌≡◌, ◌++◌, ◌+◌, [], length};

    /// No bytes.
    pub fn new() -> Gathered
        ensures { result ≡ [] }
    {
        Gathered {
            bytes: [0; PIECE],
            len: 0,
        }
    }

    /// The bytes.
    pub fn bytes(&self) -> &[u8]
        ensures { result.now ≡ self.now }
    {
        &self.bytes[..self.len]
    }

    /// For how many more there is room.
    pub fn room(&self) -> usize
        ensures { length self.now + result ≡ PIECE }
    {
        PIECE - self.len
    }

    /// Appends bytes.
    pub fn push(&mut self, bytes: &[u8])
        requires { length self.old + length bytes.now ≤ PIECE }
        ensures { self.new ≡ self.old ++ bytes.now }
    {
        let end = self.len + bytes.len();
        self.bytes[self.len..end].copy_from_slice(bytes);
        self.len = end;
    }

    /// Lets all go.
    pub fn clear(&mut self)
        ensures { self.new ≡ [] }
    {
        self.len = 0;
    }
}
