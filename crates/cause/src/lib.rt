// Why something that is lent is refused, by name, and the number that programs print and C functions return for it.
#![tactic(auto)]

ghost use Rattle.std.specs.Prelude.{◌≡◌};
ghost use Rattle.cause.specs.Cause.{number as number_of};

#[derive(Clone, Copy, Debug, PartialEq, Eq, Hash)]
pub enum Cause {
    // Over 128 kinds, or a kind that is neither 0 nor 1.
    Kinds,
    // Over 8,192 literals or 2,048 clauses, or a last entry other than 0.
    Literals,
    // A literal beyond the unknowns.
    Beyond,
    // A table of rows, or of their marks, of a size that none has, or a count of rows that no table holds.
    Rows,
    // A work area of another size.
    Work,
    // A limit of no rounds.
    Limit,
    // A claim that is neither 0 nor 1, or a count over the rows lent.
    Count,
    // A row with a bit beyond its unknowns.
    StrayBit,
    // A text that is too long, or tables of other sizes to read it into.
    TooLong,
    // A line of no shape that is allowed at its place.
    Shape,
    // A number out of range.
    Range,
    // A name that is bound twice.
    BoundTwice,
    // Too many names or entries, or other lines than the p line tells.
    Sizes,
    // An output table shorter than the literals.
    Output,
    // A table of counts that has not one entry a row.
    Counts,
    // A witness file's map with an unknown bit.
    Map,
    // A witness file of another length than its fields have.
    Length,
    // A gate's input, or the output, that nothing before it binds.
    Input,
    // A gate's name that is already used.
    GateTwice,
    // Columns of bands that are no table.
    Bands,
    // Bands that do not rise, or a price that is too dear.
    Prices,
    // Too many studies.
    Studies,
    // A study's answer that no run has.
    Answer,
    // A study's fee that is too high.
    Fee,
    // A list of settings that is none.
    Settings,
    // Values or moves that are too many, or neither 0 nor 1.
    Values,
}

impl Cause {
    pub fn number(self) -> u32
        ensures { result ≡ number_of self }
    {
        match self {
            Cause::Kinds => 1,
            Cause::Literals => 2,
            Cause::Beyond => 3,
            Cause::Rows => 4,
            Cause::Work => 5,
            Cause::Limit => 6,
            Cause::Count => 7,
            Cause::StrayBit => 8,
            Cause::TooLong => 9,
            Cause::Shape => 10,
            Cause::Range => 11,
            Cause::BoundTwice => 12,
            Cause::Sizes => 14,
            Cause::Output => 15,
            Cause::Counts => 16,
            Cause::Map => 17,
            Cause::Length => 18,
            Cause::Input => 19,
            Cause::GateTwice => 20,
            Cause::Bands => 21,
            Cause::Prices => 22,
            Cause::Studies => 23,
            Cause::Answer => 24,
            Cause::Fee => 25,
            Cause::Settings => 26,
            Cause::Values => 27,
        }
    }
}
