//! What the definitions determine. The functions do nothing: each contract is a law.
ghost use Rattle.std.specs.Prelude.{◌≡◌, ◌++◌, ℕ, Bool, List, Contains};
ghost use Rattle.http_wire.specs.declared.message.Message.{Message};
ghost use Rattle.farm_rows.specs.declared.summary.Summary.{Summary};
ghost use Rattle.farm_machine.specs.State.{State};
ghost use Rattle.farm_asks.specs.declared.question.Call.{Call};
ghost use Rattle.farm_asks.specs.Replies.{answer_of};
ghost use Rattle.farm_asks.specs.declared.reply.Reply.{Reply};
ghost use Rattle.api_routes.specs.ReplyText.{reply_text};
ghost use Rattle.api_routes.specs.Routes.{IsCallOf};
ghost use Rattle.farm_bulk.specs.Bulk.{IsBulk};
ghost use Rattle.farm_bulk.specs.Connections.{Converses};
ghost use Rattle.farm_bulk.specs.Replies.{IsLastLine};

use farm_machine::law::verdict_is_one;
use farm_text::a_text_is_of_one_document;
use http_wire::messages_are_one;
use route_table::no_two_routes_fit;

/// Where a body has no line feed, the last line of what ends with its reply is that body.
pub fn a_body_is_the_last_line()
    ensures { (before : List ℕ) (reply : Reply) (closes : Bool) → ¬ Contains (answer_of reply).body 10
        → IsLastLine (before ++ reply_text reply closes) (answer_of reply).body }
{}

/// A message makes one call.
pub fn a_message_makes_one_call()
    ensures { (message : Message) (one other : Call) → IsCallOf message one → IsCallOf message other → one ≡ other }
{
    a_text_is_of_one_document();
    no_two_routes_fit();
}

/// What is sent over a connection leads a farm to one state, and is answered in one way.
pub fn a_connection_has_one_outcome()
    ensures state { (before one other : State) (sent written text : List ℕ) → Converses before one sent written → Converses before other sent text → one ≡ other }
    ensures written { (before one other : State) (sent written text : List ℕ) → Converses before one sent written → Converses before other sent text → written ≡ text }
{
    a_text_is_of_one_document();
    no_two_routes_fit();
    messages_are_one();
    verdict_is_one();
}

/// The load of a seed and a number of tasks has one summary.
pub fn a_load_has_one_summary()
    ensures { (seed tasks : ℕ) (one other : Summary) → IsBulk seed tasks one → IsBulk seed tasks other → one ≡ other }
{
    a_text_is_of_one_document();
    no_two_routes_fit();
    messages_are_one();
    verdict_is_one();
}
