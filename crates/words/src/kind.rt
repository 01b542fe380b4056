// What a word is.
ghost use Rattle.std.specs.Prelude.{◌≡◌};
ghost use Rattle.words.specs.Kinds.{Names, number_of};

// The numbers of the kinds are those of specs/Kinds.antt.
#[derive(Clone, Copy, Debug, PartialEq, Eq)]
pub enum Kind {
    // the head of a plant paper: how many tanks and valves
    Counts = 1,
    // what a valve takes from a tank, and what it gives to one
    Intake = 2,
    Outlet = 3,
    // the head of a totals paper, and what one valve is fired in all
    Divisor = 4,
    Total = 5,
    // a barrier paper's cases and their lines, with the weights of either side
    Case = 6,
    Line = 7,
    Left = 8,
    Right = 9,
    // its steps and their matches
    Step = 10,
    Match = 11,
    // what a tank holds in the source, and in the target
    Source = 12,
    Target = 13,
}

// A number that names no kind.
#[derive(Clone, Copy, Debug, PartialEq, Eq)]
pub struct UnknownKind(pub u32);

impl From<Kind> for u32 {
    ghost from_gives = { λ kind number. number ≡ number_of kind };

    fn from(kind: Kind) -> u32 {
        kind as u32
    }
}

impl TryFrom<u32> for Kind {
    type Error = UnknownKind;

    ghost try_from_gives = { Names };

    fn try_from(number: u32) -> Result<Kind, UnknownKind> {
        match number {
            1 => Ok(Kind::Counts),
            2 => Ok(Kind::Intake),
            3 => Ok(Kind::Outlet),
            4 => Ok(Kind::Divisor),
            5 => Ok(Kind::Total),
            6 => Ok(Kind::Case),
            7 => Ok(Kind::Line),
            8 => Ok(Kind::Left),
            9 => Ok(Kind::Right),
            10 => Ok(Kind::Step),
            11 => Ok(Kind::Match),
            12 => Ok(Kind::Source),
            13 => Ok(Kind::Target),
            _ => Err(UnknownKind(number)),
        }
    }
}
