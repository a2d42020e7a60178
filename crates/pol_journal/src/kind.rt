ghost use Rattle.std.specs.Prelude.{◌≡◌};
ghost use Rattle.pol_journal.specs.Format.{name_of};

/// What a journal is of: the catalogue, or the objects.
#[derive(Clone, Copy, PartialEq, Eq)]
pub enum Kind {
    Catalogue,
    Objects,
}

impl Kind {
    /// The eight bytes that a journal of this kind begins with.
    pub fn name(self) -> [u8; 8]
        ensures { result ≡ name_of self }
    {
        match self {
            Kind::Catalogue => *b"POLJRN01",
            Kind::Objects => *b"POLOBJ01",
        }
    }
}
