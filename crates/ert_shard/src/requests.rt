//! The asynchronous requests of a shard.
ghost use Rattle.std.specs.Prelude.{◌≡◌, ◌↔◌, IsTrue, true};
ghost use Rattle.std.specs.Option.{is_some};
ghost use Rattle.ert_world.specs.Worlds.{left_for};

use crate::mailing::may_get_mail;
use crate::shard::Shard;
use ert_defs::{NoMemory, Request, RequestKind};
use ert_effects::SERVED_A_TURN;

/// Why a request isn't served.
#[derive(Clone, Copy, Debug, PartialEq, Eq)]
pub enum ServeErr {
    /// The answer is for a process of another shard: the request was made before the world was divided.
    NotHome,
    /// There is no memory for the answer.
    NoMemory,
}

impl Shard {
    ghost use Rattle.std.specs.Prelude.{◌≡◌, ◌+◌, ◌↔◌, [], ◌∷◌, Some, None, IfOk, IsTrue, true};
    ghost use Rattle.ert_defs.specs.{States.sched_of, declared.entry.Actor.TheVariants.{Inbox, MailOf}};
    ghost use Rattle.ert_effects.specs.{Chains.HoldsRequest, RequestCalls.{Asks, Picks, Answers}};
    ghost use Rattle.ert_shard.specs.{Serving.{ShardForgetsCancelled, ShardServes, ShardServesAll}, Shards.{ShardHasForgotten, ShardSteps, ShardBy, IsHome}};

    /// Asks the shard's scheduler to cancel or to read a timer, and to answer to a process of the shard (`erlang` module
    /// reference, `cancel_timer` and `read_timer`, option `async`). It does so in one of its next turns.
    ///
    /// The timer may be of any wheel: as by `cancel_timer`, that of another shard holds the row until it would be due.
    /// If memory runs out, nothing has changed.
    pub fn ask(&mut self, request: Request) -> Result<(), NoMemory>
        requires { IsHome self.old.share request.reply_to }
        ensures { ShardSteps self.old (ShardBy self.old (λ g. Asks g (self.old.share.number + 1) self.old.share.number request result)) self.new }
    {
        let by = self.number + 1;
        self.inbox.ask(&self.desk, &mut self.pass, by, request)
    }

    /// Serves one request: that in the scheduler's hand, or the first of its inbox. False comes where there is none. Where
    /// it cancelled a timer of the shard's own wheel, that holds no row of it.
    ///
    /// After a refusal the request stays in the hand. A shard asks for its own processes alone, so `NotHome` comes only of
    /// a world that had requests when it was divided.
    pub fn serve(&mut self) -> Result<bool, ServeErr>
        ensures call { ShardSteps self.old (λ way. ShardServes self.old.settings way self.old.share result) self.new }
        ensures forgotten { ShardForgetsCancelled self.old self.new }
    {
        let Some(request) = self.hold() else {
            return Ok(false);
        };
        if !self.is_home(request.reply_to) {
            return Err(ServeErr::NotHome);
        }
        match self.answer_held(&request) {
            Ok(_) => Ok(true),
            Err(_) => Err(ServeErr::NoMemory),
        }
    }

    /// Serves requests until there is none, or one for a process of another shard, 64 at most, and answers how many were
    /// served.
    pub(crate) fn serve_all(&mut self) -> Result<u32, NoMemory>
        ensures { ShardSteps self.old (λ way. ShardServesAll self.old.settings way self.old.share result) self.new }
    {
        self.keeps_laws();
        for served in 0..SERVED_A_TURN {
            match self.serve() {
                Ok(true) => {}
                Ok(false) => return Ok(served),
                Err(ServeErr::NotHome) => return Ok(served),
                Err(ServeErr::NoMemory) => return Err(NoMemory),
            }
        }
        Ok(SERVED_A_TURN)
    }

    /// Whether a process is of the shard.
    pub fn is_home(&self, process: u32) -> bool
        ensures { IsTrue result ↔ IsHome self.now.share process }
    {
        self.from <= process && process < self.to
    }

    /// The request in the scheduler's hand. Where the hand is empty, the first of the inbox is taken into it.
    fn hold(&mut self) -> Option<Request>
        ensures call { ShardSteps self.old (λ way. HoldsRequest self.old.settings way self.old.share.number result) self.new }
        ensures hand { (sched_of self.new.settings self.new.history self.new.share.number).hand ≡ result }
    {
        self.keeps_laws();
        match self.hand() {
            Some(request) => Some(request),
            None => self.pick(),
        }
    }

    /// The request in the scheduler's hand.
    fn hand(&self) -> Option<Request>
        ensures { result ≡ (sched_of self.now.settings self.now.history self.now.share.number).hand }
    {
        self.sched.hand
    }

    /// Takes the first request of the inbox into the empty hand.
    fn pick(&mut self) -> Option<Request>
        requires { (sched_of self.old.settings self.old.history self.old.share.number).hand ≡ None }
        ensures call { ShardSteps self.old (λ way. way (Inbox self.old.share.number ∷ []) (Picks self.old.settings self.old.share.number result)) self.new }
        ensures hand { (sched_of self.new.settings self.new.history self.new.share.number).hand ≡ result }
    {
        let got = self.inbox.pick(&self.desk, &mut self.pass);
        self.sched.hand = got;
        got
    }

    /// Answers the request in the hand to a process of the shard, and empties the hand.
    fn answer_held(&mut self, request: &Request) -> Result<Option<u64>, NoMemory>
        requires home { IsHome self.old.share request.now.reply_to }
        requires hand { (sched_of self.old.settings self.old.history self.old.share.number).hand ≡ Some request.now }
        ensures call { ShardSteps self.old (λ way. way (MailOf request.now.reply_to ∷ []) (Answers self.old.settings self.old.share.number request.now result)) self.new }
        ensures forgotten { IfOk result (λ left. is_some (left_for request.now.kind left) ≡ true → ShardHasForgotten self.new request.now.timer) }
    {
        let place = request.reply_to - self.from;
        may_get_mail(&mut self.list, place);
        let mail = &mut self.mails[place as usize];
        let left = mail.answer(&self.desk, &mut self.pass, self.number, request)?;
        self.sched.hand = None;
        if has_cancelled(self.number, request, left) {
            self.wheel.forget(&self.pass, request.timer);
        }
        Ok(left)
    }
}

/// Whether a timer of a wheel was cancelled for a request.
fn has_cancelled(wheel: u32, request: &Request, left: Option<u64>) -> bool
    ensures { IsTrue result ↔ ((request.now.timer.wheel ≡ wheel) × (is_some (left_for request.now.kind left) ≡ true)) }
{
    let cancelled = match request.kind {
        RequestKind::Cancel => left.is_some(),
        RequestKind::Read => false,
    };
    request.timer.wheel == wheel && cancelled
}
