ghost use Rattle.std.specs.Prelude.{◌≡◌};

use std::mem;

/// An object that a house lends once.
#[derive(Drop)]
pub enum Lending<T> {
    /// It is there.
    Ready(T),
    /// It was given.
    Out,
    /// It came back so.
    Back(T),
    /// The house does not tell.
    Untold,
}

impl<T: Drop> Lending<T> {
    ghost use Rattle.houses.specs.House.{ready, returned, after_giving, after_return};
    ghost use Rattle.std.specs.Option.{option_copied};

    /// Gives the object, if it is there.
    pub fn give(&mut self) -> Option<T>
        ensures given { result ≡ ready self.old }
        ensures after { self.new ≡ after_giving self.old }
    {
        match mem::replace(self, Lending::Untold) {
            Lending::Ready(object) => {
                *self = Lending::Out;
                Some(object)
            }
            _ => None,
        }
    }

    /// Takes the object back.
    pub fn take_back(&mut self, object: T)
        ensures { self.new ≡ after_return self.old object }
    {
        *self = match self {
            Lending::Out => Lending::Back(object),
            _ => Lending::Untold,
        };
    }

    /// The object, if it came back.
    pub fn returned(&self) -> Option<&T>
        ensures { option_copied result ≡ returned self.now }
    {
        match self {
            Lending::Back(object) => Some(object),
            _ => None,
        }
    }
}
