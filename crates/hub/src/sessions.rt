//! What the hub does with the session of its log, whoever is connected.
ghost use Rattle.std.specs.Prelude.{◌≡◌, ℕ, List};
ghost use Rattle.account.specs.declared.rows.Row.{Row};
ghost use Rattle.line.specs.Lines.{LineView};
ghost use Rattle.message_log.specs.Meaning.{Meaning};
ghost use Rattle.framing.specs.Calling.{answered};
ghost use Rattle.rules.specs.Calls.{publish, finish, roll};
ghost use Rattle.hub.specs.Ends.{side_of};

use crate::hubs::Hub;
use message_log::Log;
use wire::Refusal;

impl Hub {
    /// Publishes a message: it is appended to the log. Refuses as the log does, and then by `SessionFinished`; a
    /// refusal changes nothing.
    pub fn publish<G: Log>(&self, message: &[u8], log: &mut G) -> Result<(), Refusal>
        ensures { (up down : LineView) (rows : List Row) (frame out : List ℕ) →
            let before = side_of self.now (G.Log.view log.old) up down rows frame out in
            let after = side_of self.now (G.Log.view log.new) up down rows frame out in
            answered result after ≡ publish message.now before }
    {
        log.would_take(message.len())?;
        if self.finished {
            return Err(Refusal::SessionFinished);
        }
        log.append(message)
    }

    /// Publishing is finished. Refuses by `SessionFinished` where it was already.
    pub fn finish(&mut self) -> Result<(), Refusal>
        ensures { (log : Meaning) (up down : LineView) (rows : List Row) (frame out : List ℕ) →
            let before = side_of self.old log up down rows frame out in
            let after = side_of self.new log up down rows frame out in
            answered result after ≡ finish before }
    {
        if self.finished {
            return Err(Refusal::SessionFinished);
        }
        self.finished = true;
        Ok(())
    }

    /// Begins the next session, which is not finished. Refuses by `HubBusy` where it is bound to a login, and by
    /// `LastSession`; a refusal changes nothing.
    pub fn roll<G: Log>(&mut self, log: &mut G) -> Result<(), Refusal>
        ensures { (up down : LineView) (rows : List Row) (frame out : List ℕ) →
            let before = side_of self.old (G.Log.view log.old) up down rows frame out in
            let after = side_of self.new (G.Log.view log.new) up down rows frame out in
            answered result after ≡ roll before }
    {
        if self.state.is_busy() {
            return Err(Refusal::HubBusy);
        }
        let Some(session) = log.session().checked_add(1) else {
            return Err(Refusal::LastSession);
        };
        log.begin(session)?;
        self.finished = false;
        Ok(())
    }
}
