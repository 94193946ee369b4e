//! What references mean.
ghost use Rattle.std.specs.Prelude.{◌≡◌};
ghost use Rattle.myrial_scopes.specs.Meanings.{is_ambiguous, is_unknown, place_in, with_place};

/// What a reference means.
#[derive(Clone, Copy, Debug, PartialEq, Eq)]
pub enum Meaning {
    /// No column.
    Unknown,
    /// The one column at this place of the combined row.
    One(u32),
    /// Two columns or more.
    Ambiguous,
}

impl Meaning {
    /// Whether no column is meant.
    pub fn is_unknown(self) -> bool
        ensures { result ≡ is_unknown self }
    {
        matches!(self, Meaning::Unknown)
    }

    /// Whether two columns or more may be meant.
    pub fn is_ambiguous(self) -> bool
        ensures { result ≡ is_ambiguous self }
    {
        matches!(self, Meaning::Ambiguous)
    }

    /// The place, where there is just one.
    pub fn place(self) -> Option<u32>
        ensures { result ≡ place_in self }
    {
        match self {
            Meaning::One(place) => Some(place),
            Meaning::Unknown | Meaning::Ambiguous => None,
        }
    }

    /// What a reference means that may mean the column at a place besides.
    pub(crate) fn with(self, place: u32) -> Meaning
        ensures { result ≡ with_place self place }
    {
        match self {
            Meaning::Unknown => Meaning::One(place),
            Meaning::One(_) | Meaning::Ambiguous => Meaning::Ambiguous,
        }
    }
}
