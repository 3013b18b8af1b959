//! What the definitions of a stream determine.
ghost use Rattle.std.specs.Prelude.{◌≡◌, ℕ, List};
ghost use Rattle.http_wire.specs.Stream.{Outcome, Gives, Ending, Messages};
ghost use Rattle.http_wire.specs.declared.body.TheConstants.{PIECE};
ghost use Rattle.http_wire.specs.declared.head.TheConstants.{HEAD_LIMIT, BODY_LIMIT, FIELD_LIMIT};
ghost use Rattle.http_wire.specs.declared.message.Message.{Message};

/// The next outcome of a stream is one.
pub fn outcome_is_one()
    ensures { (bytes : List ℕ) (a b : Outcome) → Gives bytes a → Gives bytes b → a ≡ b }
{}

/// The messages of a stream, with a given room, and the ending of their list are one.
pub fn messages_are_one()
    ensures { (room : ℕ) (bytes : List ℕ) (some others : List Message) (end ending : Ending)
        → Messages room bytes some end → Messages room bytes others ending → (some ≡ others) × (end ≡ ending) }
{}

/// No stream is without a next outcome.
pub fn each_stream_has_an_outcome()
    ensures { (bytes : List ℕ) → ¬ ((outcome : Outcome) → ¬ Gives bytes outcome) }
{}

/// No stream is without a list of its messages, whatever room there is for them.
pub fn each_stream_has_messages()
    ensures { (room : ℕ) (bytes : List ℕ) → ¬ ((messages : List Message) (ending : Ending) → ¬ Messages room bytes messages ending) }
{}

/// What is said of the limits is said of these numbers. Each field takes three bytes of a head at least.
pub fn the_limits()
    ensures head { HEAD_LIMIT ≡ 16384 }
    ensures body { BODY_LIMIT ≡ 1048576 }
    ensures fields { FIELD_LIMIT ≡ 5462 }
    ensures piece { PIECE ≡ 8192 }
{}
