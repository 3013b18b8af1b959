//! The book of clients.
ghost use Rattle.std.specs.Prelude.{◌≡◌, ◌≢◌, ℕ, All, AllPairs, IfOk, MatchOption, MatchResult, length};
ghost use Rattle.hawk_auth.specs.Clients.{clients_data, client_data, HasClientForm, IsBook, IsClientOf, IsFirstBadClient, Refuses};
ghost use Rattle.hawk_auth.specs.Places.{HasPlaces, HasRepeat};

use crate::client::{Client, has_client_form};
use std::alloc::{AllocError, Global};
use std::collections::BTreeMap;
use std::marker::Model;

/// Why a list of clients is refused: the first of these that strikes.
#[derive(Clone, Copy, Debug, PartialEq, Eq)]
pub enum BookFault {
    /// The client at this place is off its form, and none before it is.
    BadClient(usize),
    /// The client at the second place has the id of the one at the first, and no two before it have one id.
    DuplicateClient(usize, usize),
    NoMemory,
}

impl From<AllocError> for BookFault {
    ghost use Rattle.std.specs.Prelude.{◌≡◌};
    ghost use Rattle.hawk_auth.specs.declared.book.BookFault.{BookFault};

    ghost from_gives = { λ _ fault. fault ≡ BookFault.NoMemory };

    fn from(_error: AllocError) -> BookFault {
        BookFault::NoMemory
    }
}

/// The clients of a farm: each of its form, no id twice. They are seen as the list that they were given as.
#[derive(Drop)]
pub struct ClientBook {
    clients: Vec<Client>,
    places: BTreeMap<String, usize>,
}

impl Model for ClientBook {
    ghost use Rattle.std.specs.Prelude.{List, length};
    ghost use Rattle.hawk_auth.specs.Clients.{ClientData, clients_data, IsBook};
    ghost use Rattle.hawk_auth.specs.Places.{HasPlaces};

    ghost Value = { List ClientData };

    ghost view = { λ b. clients_data b.clients.items };

    ghost invariant = { λ b. IsBook (clients_data b.clients.items)
        × HasPlaces (clients_data b.clients.items) b.places (length (clients_data b.clients.items)) };
}

impl ClientBook {
    /// The book of these clients, unless it is refused.
    pub fn build(alloc: Global, clients: Vec<Client>) -> Result<ClientBook, BookFault>
        ensures { MatchResult result
            (λ book. (book ≡ clients_data clients.items) × IsBook (clients_data clients.items))
            (Refuses (clients_data clients.items)) }
    {
        if let Some(place) = first_bad_client(&clients) {
            return Err(BookFault::BadClient(place));
        }
        let places = places_of(alloc, &clients)?;
        Ok(ClientBook { clients, places })
    }

    /// The number of clients.
    pub fn len(&self) -> usize
        ensures { result ≡ length self.now }
    {
        self.clients.len()
    }

    /// What holds of each book: its clients are of their form, and no id comes twice.
    pub(crate) fn is_book(&self)
        ensures { IsBook self.now }
    {
        let _ = self.clients.len();
    }

    /// The client with this id, which is looked up in an ordered map.
    pub fn find(&self, id: &str) -> Option<&Client>
        ensures client { MatchOption result (All (λ c. c.id ≢ id.now) self.now)
            (λ c. IsClientOf self.now id.now (client_data c.now)) }
        ensures book { IsBook self.now }
    {
        let Some(place) = self.places.get(id) else {
            return None;
        };
        Some(&self.clients[*place])
    }
}

/// The first client that is off its form.
fn first_bad_client(clients: &[Client]) -> Option<usize>
    ensures { MatchOption result (All HasClientForm (clients_data clients.now))
        (IsFirstBadClient (clients_data clients.now)) }
{
    for (place, client) in clients.iter().enumerate() {
        if !has_client_form(client) {
            return Some(place);
        }
    }
    None
}

/// The place of each id, or the first client whose id an earlier one has.
fn places_of(alloc: Global, clients: &[Client]) -> Result<BTreeMap<String, usize>, BookFault>
    ensures { MatchResult result
        (λ places. AllPairs (λ c d. c.id ≢ d.id) (clients_data clients.now)
        × HasPlaces (clients_data clients.now) places (length (clients_data clients.now)))
        (HasRepeat (clients_data clients.now)) }
{
    let mut places = BTreeMap::new(alloc);
    for (later, client) in clients.iter().enumerate() {
        if let Some(earlier) = places.get(client.id.as_str()) {
            return Err(BookFault::DuplicateClient(*earlier, later));
        }
        let id = String::from_str(alloc, client.id.as_str())?;
        let Ok(_) = places.insert(id, later) else {
            return Err(BookFault::NoMemory);
        };
    }
    Ok(places)
}
