ghost use Rattle.std.specs.Prelude.{List, [], ◌∷◌, Option, None};
ghost use Rattle.farm_text.specs.Logs.{LogGrows};
ghost use Rattle.farm_server.specs.declared.gate.When.{When};

/// Where a connection stands with the n-th of its requests, from 0.
#[derive(Clone, Copy, Debug, PartialEq, Eq)]
pub enum When {
    /// Before the desk is asked.
    Asked(u64),
    /// After the reply is written.
    Answered(u64),
}

/// Is told where a connection stands, so that a test can hold it there.
pub trait Gate {
    /// What the gate was told so far, where it is kept.
    ghost told: { Self → Option (List When) };

    fn at(&mut self, when: When)
        ensures { LogGrows (told self.old) (told self.new) (when ∷ []) };
}

/// Does nothing.
#[derive(Clone, Copy)]
pub struct NoGate;

impl Gate for NoGate {
    ghost told = { λ _. None };

    fn at(&mut self, _when: When) {}
}
