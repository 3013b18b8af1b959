//! A small object at a shared desk.
ghost use Rattle.std.specs.Prelude.{◌≡◌, ℕ, ◌+◌, ◌<◌, List, [], ◌∷◌, Option, Some, None, true, false, option_map, length, IfOk};
ghost use Rattle.history.specs.Asks.{LeadsAlone};
ghost use denote.Param.Send.{IsSync};
ghost use Rattle.shared_desk.specs.Standing.{fresh_token, home_of};

use farm_desk::{Desk, Object, Spare};
use history::Machine;
use shared_desk::{Pass, Shared, Token};
use std::alloc::Global;
use std::hint;
use std::sync::Wait;
use std::sync::atomic::{AtomicBool, Ordering};
use std::test::Fail;
use std::thread::{Threads, join};

/// A sum to which a call adds, and which a tick sets back to 0. A call replies the new sum; its answer says also whether a
/// tick came before it.
struct Adding {}

impl Machine for Adding {
    type Question = u8;

    type Answer = (bool, u64);

    type State = u64;

    type Entry = Option<u8>;

    type Reply = u64;

    type Opening = u64;

    ghost rules = { record {
      lawful = λ sum entry. Unit {0};
      after = λ sum entry. elim entry [ None ↦ 0 | Some n ↦ sum + n ];
      reply = λ sum entry. option_map (λ n. sum + n) entry;
      asked = λ entry. entry;
      ticks = λ sum n answer. elim answer.0 [ true ↦ None ∷ [] | false ↦ [] ];
      told = λ answer. answer.1;
    } };

    ghost start = { λ opening. opening };
}

/// A sum in a variable. One that is full is set back to 0 before the next is added.
#[derive(Drop)]
struct Sum {
    sum: u64,
}

impl Object for Sum {
    type Question = u8;

    type Answer = (bool, u64);

    type Law = Adding;

    ghost state = { λ object. object.sum };

    fn ask(&mut self, question: u8) -> (bool, u64) {
        let full = self.sum > 1000;
        if full {
            self.sum = 0;
        }
        self.sum += u64::from(question);
        (full, self.sum)
    }
}

/// A new desk of this sum, or that there is no memory for one.
fn desk_of(alloc: Global, sum: u64) -> Result<(Shared<Sum>, Token<Sum>), Fail>
    ensures { IfOk result (λ made. (made.0.first.sum ≡ sum) × (made.1 ≡ fresh_token made.0.desk sum)) }
{
    match Shared::new(alloc, Sum { sum }) {
        Ok(made) => Ok(made),
        Err(object) if object.sum == sum => Err(Fail::new("no memory")),
        Err(_) => Err(Fail::new("another object came back")),
    }
}

/// An object after a desk is closed, and what the desk answered before.
#[derive(Drop)]
struct Closed<O, A> {
    object: O,
    answers: A,
}

/// Three questions at a new desk, which is then closed: the history has three calls.
fn ask_three<O: Object, R: Wait>(
    rt: &R,
    shared: Shared<O>,
    token: Token<O>,
    questions: (O::Question, O::Question, O::Question),
) -> Closed<O, (O::Answer, O::Answer, O::Answer)>
    requires { token ≡ fresh_token shared.desk (O.state shared.first) }
    ensures { (seen : List O.Law.Entry) × (calls : List ℕ) × LeadsAlone O.Law.rules (O.state shared.first) seen calls (O.state result.object) × (length calls ≡ 3) }
{
    let mut pass = shared.pass(rt, token);
    let answers = (
        pass.ask(questions.0),
        pass.ask(questions.1),
        pass.ask(questions.2),
    );
    let token = pass.token();
    let object = shared.close(token);
    Closed { object, answers }
}

#[test]
fn three_asks(rt: HostRuntime) -> Result<(), Fail> {
    let (shared, token) = desk_of(rt.alloc(), 999)?;
    let closed = ask_three(&rt, shared, token, (2, 3, 4));
    assert_eq!(rt; closed.object.sum, 7);
    Ok(())
}

/// Three questions on one pass of a new desk, and one on another that is split off and joined; then the desk is closed: the
/// history has four calls.
fn ask_four<O: Object, R: Wait>(
    rt: &R,
    shared: Shared<O>,
    token: Token<O>,
    questions: (O::Question, O::Question, O::Question),
    aside: O::Question,
) -> Closed<O, ((O::Answer, O::Answer, O::Answer), O::Answer)>
    requires { token ≡ fresh_token shared.desk (O.state shared.first) }
    ensures { (seen : List O.Law.Entry) × (calls : List ℕ) × LeadsAlone O.Law.rules (O.state shared.first) seen calls (O.state result.object) × (length calls ≡ 4) }
{
    let mut pass = shared.pass(rt, token);
    let mut other = pass.split(1);
    let first = pass.ask(questions.0);
    let beside = other.ask(aside);
    let second = pass.ask(questions.1);
    pass.join(other);
    let third = pass.ask(questions.2);
    let token = pass.token();
    let object = shared.close(token);
    Closed {
        object,
        answers: ((first, second, third), beside),
    }
}

#[test]
fn three_asks_and_one_beside(rt: HostRuntime) -> Result<(), Fail> {
    let (shared, token) = desk_of(rt.alloc(), 0)?;
    let closed = ask_four(&rt, shared, token, (1, 10, 100), 200);
    assert_eq!(rt; closed.object.sum, 311);
    assert_eq!(rt;
        closed.answers,
        (((false, 1), (false, 211), (false, 311)), (false, 201))
    );
    Ok(())
}

/// Two questions at any desk.
fn ask_two<K: Desk>(
    mut desk: K,
    first: K::Question,
    second: K::Question,
) -> (K, (K::Answer, K::Answer))
    requires { 1 < K.spare desk }
    ensures home { K.home result.0 ≡ K.home desk }
    ensures left { K.spare result.0 + 2 ≡ K.spare desk }
{
    let answers = (desk.ask(first), desk.ask(second));
    (desk, answers)
}

/// Waits until the gate is open, for so many turns at most, and says whether it is.
fn await_gate(gate: &AtomicBool) -> bool {
    for _ in 0..100_000_000u32 {
        if gate.load(Ordering::SeqCst) {
            return true;
        }
        hint::spin_loop();
    }
    false
}

/// Two questions in one thread and two in another, and a close: the history has four calls.
fn ask_in_two_threads<R: Threads + Wait + Sync>(
    rt: &R,
    shared: Shared<Sum>,
    token: Token<Sum>,
) -> Closed<Sum, ((bool, u64), (bool, u64))>
    requires { token ≡ fresh_token shared.desk shared.first.sum }
    ensures { (seen : List (Option ℕ)) × (calls : List ℕ) × LeadsAlone ⟦<Adding as Machine>⟧.rules shared.first.sum seen calls result.object.sum × (length calls ≡ 4) }
{
    let mut pass = shared.pass(rt, token);
    let other = pass.split(2);
    let (first, second) = join(
        rt,
        || -> (Pass<'_, Sum, R>, ((bool, u64), (bool, u64)))
            requires { IsSync R.row × (1 < pass.left) }
            ensures { (home_of result.0 ≡ home_of pass.entry) × (result.0.left + 2 ≡ pass.entry.left) }
        { ask_two(pass, 1, 2) },
        || -> (Pass<'_, Sum, R>, ((bool, u64), (bool, u64)))
            requires { IsSync R.row × (1 < other.left) }
            ensures { (home_of result.0 ≡ home_of other.entry) × (result.0.left + 2 ≡ other.entry.left) }
        { ask_two(other, 10, 20) },
    );
    let (mut pass, (_, last)) = first;
    let (other, (_, beside)) = second;
    pass.join(other);
    let token = pass.token();
    let object = shared.close(token);
    Closed {
        object,
        answers: (last, beside),
    }
}

#[test]
fn two_threads(rt: HostRuntime) -> Result<(), Fail> {
    let (shared, token) = desk_of(rt.alloc(), 0)?;
    let closed = ask_in_two_threads(&rt, shared, token);
    assert_eq!(rt; closed.object.sum, 33);
    assert!(rt; closed.answers.0.1 >= 3 && closed.answers.1.1 >= 30);
    Ok(())
}

/// Asks in one thread once the gate is open, and in another before opening it. Says whether the gate was open in time.
fn ask_through_gate<R: Threads + Wait + Sync>(
    rt: &R,
    shared: &Shared<Sum>,
    token: Token<Sum>,
) -> (Token<Sum>, bool)
    requires { (token.desk ≡ shared.now.desk) × (1 < token.left) }
    ensures { (result.0.desk ≡ token.desk) × (result.0.left + length result.0.mine ≡ token.left + length token.mine) }
{
    let gate = AtomicBool::new(false);
    let mut pass = shared.pass(rt, token);
    let other = pass.split(1);
    let (first, other) = join(
        rt,
        || -> (Pass<'_, Sum, R>, bool)
            requires { IsSync R.row × (0 < pass.left) }
            ensures { home_of result.0 ≡ home_of pass.entry }
        {
            let in_time = await_gate(&gate);
            (ask_one(pass, 1), in_time)
        },
        || -> Pass<'_, Sum, R>
            requires { IsSync R.row × (0 < other.left) }
            ensures { home_of result ≡ home_of other.entry }
        {
            let asked = ask_one(other, 2);
            gate.store(true, Ordering::SeqCst);
            asked
        },
    );
    let (mut pass, in_time) = first;
    pass.join(other);
    (pass.token(), in_time)
}

/// One question at any desk.
fn ask_one<K: Desk<Answer = (bool, u64)>>(mut desk: K, question: K::Question) -> K
    requires { 0 < K.spare desk }
    ensures { K.home result ≡ K.home desk }
{
    desk.ask(question);
    desk
}

#[test]
fn a_gate_holds_one_thread(rt: HostRuntime) -> Result<(), Fail> {
    let (shared, token) = desk_of(rt.alloc(), 0)?;
    let (token, in_time) = ask_through_gate(&rt, &shared, token);
    assert!(rt; in_time && token.asked() == 2);
    let Sum { sum } = shared.close(token);
    assert_eq!(rt; sum, 3);
    Ok(())
}
