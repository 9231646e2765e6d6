// The refusals by name, each with its number (RULES 12).
ghost use Rattle.std.specs.Prelude.{◌≡◌};
ghost use Rattle.budget.specs.Refusal.{number_of};

#[derive(Clone, Copy, PartialEq, Eq)]
pub enum Refusal {
    // A sheet that ends inside a record, or where one has to begin.
    Cut = 1,
    // A record of a kind that there is not.
    Kind = 2,
    // A record whose length is not its kind's.
    Length = 3,
    // A task that no component stands before.
    NoComponent = 4,
    // Component numbers that do not rise.
    Number = 5,
    // Too many tasks of one component.
    Tasks = 6,
    // Too many components of one sheet.
    Components = 7,
    // An end record that counts wrongly, or that is not the last.
    End = 8,
    // A number out of its range.
    Range = 9,
    // A common period above the limit.
    Long = 10,
    // A buffer that does not fit what is to be written.
    Room = 11,
    // Jobs that are no legal arrival, or that the walk has no room for.
    Jobs = 12,
    // A trace that is too long, or that has a byte other than 0 and 1.
    Trace = 13,
    // A sheet that is too long.
    Sheet = 14,
    // A place at which no component or task stands.
    Place = 15,
    // A pair that breaks the rules of pairs, or a record that may not stand behind a pair and does.
    Pair = 16,
    // A stored common period that is not the component's own.
    Common = 17,
}

impl From<Refusal> for u16 {
    ghost from_gives = { λ refusal number. number ≡ number_of refusal };

    fn from(refusal: Refusal) -> u16 {
        refusal as u16
    }
}
