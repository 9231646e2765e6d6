// The kinds of a sheet's records (RULES 10), and each one's row of fields.
ghost use Rattle.std.specs.Prelude.{◌≡◌};
ghost use Rattle.record.specs.Layout.{row_of};
ghost use Rattle.record.specs.inner.Kinds.{kind_number, Numbers};

use crate::row::Row;
use budget::refusal::Refusal;

#[derive(Clone, Copy)]
pub(crate) enum Kind {
    Stated = 1,
    Task = 2,
    End = 3,
    Asked = 4,
    Late = 5,
    Pair = 6,
}

impl From<Kind> for u16 {
    ghost from_gives = { λ kind number. number ≡ kind_number kind };

    fn from(kind: Kind) -> u16 {
        kind as u16
    }
}

impl TryFrom<u16> for Kind {
    type Error = Refusal;

    ghost try_from_gives = { Numbers };

    #[tactic(auto, unfolding(crate::specs::Layout::row_of))]
    fn try_from(number: u16) -> Result<Kind, Refusal> {
        match number {
            1 => Ok(Kind::Stated),
            2 => Ok(Kind::Task),
            3 => Ok(Kind::End),
            4 => Ok(Kind::Asked),
            5 => Ok(Kind::Late),
            6 => Ok(Kind::Pair),
            _ => Err(Refusal::Kind),
        }
    }
}

impl Kind {
    // The row of a kind: length, kind, then what it says.
    #[tactic(auto, unfolding(crate::specs::Layout::row_of))]
    pub(crate) fn row(self) -> Row
        ensures { result.widths ≡ row_of (kind_number self) }
    {
        let widths = match self {
            Kind::Stated => [2, 2, 2, 4, 4, 4, 0, 0],
            Kind::Task => [2, 2, 4, 4, 4, 0, 0, 0],
            Kind::End => [2, 2, 2, 0, 0, 0, 0, 0],
            Kind::Asked => [2, 2, 2, 4, 4, 0, 0, 0],
            Kind::Late => [2, 2, 4, 4, 4, 4, 0, 0],
            Kind::Pair => [2, 2, 2, 2, 0, 0, 0, 0],
        };
        Row { widths }
    }
}
