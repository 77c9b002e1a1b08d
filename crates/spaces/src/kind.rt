ghost use Rattle.std.specs.Prelude.{◌≡◌, Some, None, MatchResult};
ghost use Rattle.spaces.specs.Kinds.{arity as arity_of, code, kind_of, letter as letter_of, lettered};

/// The operators that a plan is built from. As numbers, in files and masks, they count from 0.
#[derive(Clone, Copy, PartialEq, Eq, Default, Debug)]
pub enum Kind {
    #[default]
    Scan,
    IndexScan,
    HashJoin,
    MergeJoin,
    NestedLoops,
    Filter,
    Sort,
}

impl Kind {
    /// The kind's letter in texts, an ASCII byte. No `From`, since a kind as a `u8` is its number.
    pub fn letter(self) -> u8
        ensures { result ≡ letter_of self }
    {
        match self {
            Kind::Scan => b'S',
            Kind::IndexScan => b'I',
            Kind::HashJoin => b'H',
            Kind::MergeJoin => b'M',
            Kind::NestedLoops => b'L',
            Kind::Filter => b'F',
            Kind::Sort => b'O',
        }
    }

    /// The kind that has this letter.
    pub fn from_letter(letter: u8) -> Option<Kind>
        ensures { result ≡ lettered letter }
    {
        match letter {
            b'S' => Some(Kind::Scan),
            b'I' => Some(Kind::IndexScan),
            b'H' => Some(Kind::HashJoin),
            b'M' => Some(Kind::MergeJoin),
            b'L' => Some(Kind::NestedLoops),
            b'F' => Some(Kind::Filter),
            b'O' => Some(Kind::Sort),
            _ => None,
        }
    }

    /// How many children an operator of this kind has.
    pub fn arity(self) -> u8
        ensures { result ≡ arity_of self }
    {
        match self {
            Kind::Scan | Kind::IndexScan => 0,
            Kind::Filter | Kind::Sort => 1,
            Kind::HashJoin | Kind::MergeJoin | Kind::NestedLoops => 2,
        }
    }
}

/// A number that no kind has: one above 6.
#[derive(Clone, Copy, PartialEq, Eq, Debug)]
pub struct NoSuchKind(pub u8);

impl From<Kind> for u8 {
    ghost from_gives = { λ kind number. number ≡ code kind };

    fn from(kind: Kind) -> u8 {
        kind as u8
    }
}

impl TryFrom<u8> for Kind {
    type Error = NoSuchKind;

    ghost try_from_gives = { λ number r. MatchResult r (λ kind. kind_of number ≡ Some kind) (λ e. (kind_of number ≡ None) × (e.0 ≡ number)) };

    fn try_from(number: u8) -> Result<Kind, NoSuchKind> {
        match number {
            0 => Ok(Kind::Scan),
            1 => Ok(Kind::IndexScan),
            2 => Ok(Kind::HashJoin),
            3 => Ok(Kind::MergeJoin),
            4 => Ok(Kind::NestedLoops),
            5 => Ok(Kind::Filter),
            6 => Ok(Kind::Sort),
            _ => Err(NoSuchKind(number)),
        }
    }
}
