//! Laws of the definitions. The functions do nothing: their contracts are the laws.
ghost use Rattle.std.specs.Prelude.{◌≡◌, ℕ, ◌⊎◌, List, [], ◌++◌, take, Option, None};
ghost use Rattle.disk_journal.specs.Records.{Opens, IsDamaged, IsDamagedBehind};
ghost use Rattle.disk_journal.specs.Images.{IsImage, IsWithin};

use crate::framing::BODY_LIMIT;

/// A law: a file opens to one list of bodies, or is damaged at one place, behind one list of bodies, and not both.
pub fn files_open_once()
    ensures bodies { (head file : List ℕ) (bodies others : List (List ℕ)) → Opens head file bodies → Opens head file others → bodies ≡ others }
    ensures place { (head file : List ℕ) (place other : ℕ) → IsDamaged head file place → IsDamaged head file other → place ≡ other }
    ensures before { (head file : List ℕ) (bodies others : List (List ℕ)) (place other : ℕ) → IsDamagedBehind head file bodies place → IsDamagedBehind head file others other → bodies ≡ others }
    ensures whole { (head file : List ℕ) (bodies : List (List ℕ)) (place : ℕ) → Opens head file bodies → IsDamaged head file place → ⊥ }
{}

/// A law: each file with such a head opens to some bodies, or is damaged at some place.
pub fn each_file_opens_or_is_damaged()
    ensures { (head rest : List ℕ) → ((bodies : List (List ℕ)) × Opens head (head ++ rest) bodies) ⊎ ((place : ℕ) × IsDamaged head (head ++ rest) place) }
{}

/// A law: what a stop may leave of a journal opens to its bodies, so it is never damaged, and what a stop in appends or in an opening
/// leaves of it is such a file again. A file with nothing behind its head is one.
pub fn images_open()
    ensures opens { (head file : List ℕ) (bodies : List (List ℕ)) (pending : Option (List ℕ)) → IsImage head bodies pending file → Opens head file bodies }
    ensures within { (head file : List ℕ) (bodies more : List (List ℕ)) → IsWithin head bodies more file
        → (count : ℕ) × (pending : Option (List ℕ)) × IsImage head (bodies ++ take count more) pending file }
    ensures empty { (head : List ℕ) → IsImage head [] None head }
{}

/// A law: the greatest length of a body to frame is this number.
pub fn the_body_limit()
    ensures { BODY_LIMIT ≡ 16777216 }
{}
