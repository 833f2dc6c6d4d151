// What a field's reading is: absent, a value as data, or malformed. An enum, as paper 01 has it.
ghost use Rattle.std.specs.Prelude.{◌≡◌, length};
ghost use Rattle.std.specs.Fn.{FnOnceReturnsAt, FnOnceTakesAt};
ghost use Rattle.text.specs.Promises.{Gives};
ghost use Rattle.fields.specs.Frame.{IsFramed};
ghost use Rattle.fields.specs.Readings.{malformed, absent, value_in, ForValue, IsMapped};

#[derive(Clone, Copy, Debug, PartialEq, Eq)]
pub enum Reading<T> {
    Absent,
    Value(T),
    Malformed,
}

// What a field that cannot be absent has in the place of its value, where it has no right form.
#[derive(Clone, Copy, Debug, PartialEq, Eq)]
pub struct Malformed;

impl<T: Drop> Reading<T> {
    pub fn is_malformed(self) -> bool
        ensures { Gives (malformed self) result }
    {
        matches!(self, Reading::Malformed)
    }

    pub fn is_absent(self) -> bool
        ensures { Gives (absent self) result }
    {
        matches!(self, Reading::Absent)
    }

    pub fn value(self) -> Option<T>
        ensures { Gives (value_in self) result }
    {
        match self {
            Reading::Value(value) => Some(value),
            _ => None,
        }
    }

    pub(crate) fn map<U, F: FnOnce(T) -> U>(self, f: F) -> Reading<U>
        requires { ForValue self (F.pre f) }
        ensures { IsMapped self (F.post f) result }
    {
        match self {
            Reading::Absent => Reading::Absent,
            Reading::Value(value) => Reading::Value(f(value)),
            Reading::Malformed => Reading::Malformed,
        }
    }
}

// Reads a field of so many bytes that may be blank: malformed in another width, and where there is no value. It takes a slice, since no proof
// covers a bound `FnOnce` with an array of N bytes.
pub(crate) fn framed<T, F: FnOnce(&[u8]) -> Option<T>>(
    f: &[u8],
    width: usize,
    value: F,
) -> Reading<T>
    requires { length f.now ≡ width → FnOnceTakesAt F.FnOnce value f.now }
    ensures { IsFramed width f.now (FnOnceReturnsAt F.FnOnce value f.now) result }
{
    if f.len() != width {
        return Reading::Malformed;
    }
    if text::blank(f) {
        return Reading::Absent;
    }
    match value(f) {
        Some(value) => Reading::Value(value),
        None => Reading::Malformed,
    }
}
