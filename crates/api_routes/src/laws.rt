//! What holds of the calls of messages. The function does nothing: its contract is the law.
ghost use Rattle.http_wire.specs.declared.message.Message.{Message};
ghost use Rattle.farm_asks.specs.declared.question.Call.{Call};
ghost use Rattle.farm_asks.specs.Questions.{IsSaidCall};
ghost use Rattle.api_routes.specs.Routes.{IsCallOf};

/// Some document says the definition of a task that a message makes: its body.
pub fn a_called_task_is_said()
    ensures { (message : Message) (call : Call) → IsCallOf message call → IsSaidCall call }
{}
