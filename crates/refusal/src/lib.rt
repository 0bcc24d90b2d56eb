// The refusals of document 01, by their names. Each is told to a caller by its number and its place.
#![tactic(auto)]

ghost use Rattle.std.specs.Prelude.{◌≡◌};
ghost use Rattle.refusal.specs.Refusals.{told};

#[derive(Clone, Copy)]
pub enum Refusal {
    Empty,
    TooLong,
    NotUtf8,
    HasNul,
    HasWildcard,
    BadLevel { place: usize },
    HashNotLast { place: usize },
    NoInner,
    BadGroup,
    BadSize,
    NotAStore,
    TooDeep,
    NodesFull,
    PairsFull,
    TextFull,
    ShortRoom { needed: usize },
}

// The refusal's number, 1 to 16. No refusal is 0.
pub fn number(r: Refusal) -> u64
    ensures { result ≡ (told r).number }
{
    match r {
        Refusal::Empty => 1,
        Refusal::TooLong => 2,
        Refusal::NotUtf8 => 3,
        Refusal::HasNul => 4,
        Refusal::HasWildcard => 5,
        Refusal::BadLevel { place: _ } => 6,
        Refusal::HashNotLast { place: _ } => 7,
        Refusal::NoInner => 8,
        Refusal::BadGroup => 9,
        Refusal::BadSize => 10,
        Refusal::NotAStore => 11,
        Refusal::TooDeep => 12,
        Refusal::NodesFull => 13,
        Refusal::PairsFull => 14,
        Refusal::TextFull => 15,
        Refusal::ShortRoom { needed: _ } => 16,
    }
}

// Where the fault is, or for ShortRoom the bytes that are needed; 0 for the others.
pub fn place(r: Refusal) -> u64
    ensures { result ≡ (told r).place }
{
    match r {
        Refusal::Empty => 0,
        Refusal::TooLong => 0,
        Refusal::NotUtf8 => 0,
        Refusal::HasNul => 0,
        Refusal::HasWildcard => 0,
        Refusal::BadLevel { place } => place as u64,
        Refusal::HashNotLast { place } => place as u64,
        Refusal::NoInner => 0,
        Refusal::BadGroup => 0,
        Refusal::BadSize => 0,
        Refusal::NotAStore => 0,
        Refusal::TooDeep => 0,
        Refusal::NodesFull => 0,
        Refusal::PairsFull => 0,
        Refusal::TextFull => 0,
        Refusal::ShortRoom { needed } => needed as u64,
    }
}
