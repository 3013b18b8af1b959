//! What the house lent to workers goes back.
ghost use Rattle.std.specs.Prelude.{◌≡◌, ◌<◌, List, ◌∷◌, map, vec_len};
ghost use Rattle.houses.specs.House.{after_return, all_left};

use crate::crew::Hand;
use farm_server::NoGate;
use farm_serving::Worker;
use houses::House;

/// The workers of a house.
pub type HandOf<H> = Hand<<H as House>::Door, <H as House>::Time, <H as House>::Ids>;

/// Takes the first of a row.
fn take_first<T>(row: &mut Vec<T>) -> T
    requires { 0 < vec_len row.old }
    ensures { row.old.items ≡ result ∷ row.new.items }
{
    row.remove(0)
}

/// Gives all doors of a row back, in its order.
fn give_doors_back<H: House>(row: Vec<HandOf<H>>, house: &mut H)
    ensures lends { H.lends house.new ≡ record (H.lends house.old) { doors = all_left (H.lends house.old).doors (map (λ worker. worker.door) row.items) } }
    ensures refusals { H.refusals house.new ≡ H.refusals house.old }
{
    let mut row = row;
    'doors: for _given in 0..row.len() {
        let Worker {
            door,
            clock: _,
            draws: _,
            gate: _,
        } = take_first(&mut row);
        house.back_listen(door);
    }
    row.destroy_empty();
}

/// Gives back what the house lent to workers: the clock and the draws of the first, and the doors of all, in their order.
pub fn dismiss<H: House>(crew: Vec<HandOf<H>>, house: &mut H)
    requires { 0 < vec_len crew }
    ensures lends { (first : Worker H.Door H.Time H.Ids NoGate) × (others : List (Worker H.Door H.Time H.Ids NoGate)) × (crew.items ≡ first ∷ others)
        × (H.lends house.new ≡ record (H.lends house.old) {
          clock = after_return (H.lends house.old).clock first.clock;
          draws = after_return (H.lends house.old).draws first.draws;
          doors = all_left (H.lends house.old).doors (map (λ worker. worker.door) (first ∷ others));
        }) }
    ensures refusals { H.refusals house.new ≡ H.refusals house.old }
{
    let mut crew = crew;
    let Worker {
        door,
        clock,
        draws,
        gate: _,
    } = take_first(&mut crew);
    house.back_clock(clock);
    house.back_draws(draws);
    house.back_listen(door);
    give_doors_back(crew, house);
}
