// Whose an identifier is, and whether two are of different consignors.
ghost use Rattle.text.specs.Promises.{Gives};
ghost use Rattle.ident.specs.Consignor.{another};

// Whose consignments they are: his type, the last byte of his identifiers as the post writes it, and his number. CZ names none.
#[derive(Clone, Copy, Debug, PartialEq, Eq)]
pub struct Consignor {
    pub kind: u8,
    pub number: u64,
}

// Both are named, and type or number differs.
pub fn another(one: Option<Consignor>, other: Option<Consignor>) -> bool
    ensures { Gives (another one other) result }
{
    one.is_some() && other.is_some() && one != other
}
