//! What a hub does with a packet.
//! A login is decided by the account table; what was wrong is passed on.
ghost use Rattle.std.specs.Prelude.{◌≡◌, List};
ghost use Rattle.account.specs.declared.rows.Row.{Row};
ghost use Rattle.account.specs.Requests.{asked};
ghost use Rattle.packet.specs.Meanings.{value_of};
ghost use Rattle.rules.specs.State.{Pair};
ghost use Rattle.rules.specs.Hub.{hub_acts, logs_in, refills};
ghost use Rattle.hub.specs.State.{with_state};
ghost use Rattle.hub.specs.Acts.{closing};

use crate::state::HubState;
use account::Accounts;
use message_log::Log;
use packet::{HEAD_LEN, Login, Packet};
use rules::{HubPhase, Received};
use wire::{Field, Letter, PacketFault};

impl HubState {
    /// Acts on a packet, by the phase. What is wrong with the packet is passed on with nothing changed.
    pub(crate) fn act<G: Log>(
        &mut self,
        packet: Packet<'_>,
        log: &G,
        accounts: &mut Accounts,
    ) -> Result<Received, PacketFault>
        ensures { (p : Pair) →
            let held = G.Log.view log.now in
            let before = with_state self.old held accounts.old.rows p in
            let after = with_state self.new held accounts.new.rows p in
            closing result after ≡ hub_acts self.old.phase (value_of packet.entry) before }
    {
        match (self.phase, packet) {
            (HubPhase::Waiting, Packet::LoginRequest(login)) => {
                self.log_in(login, log, accounts);
                Ok(Received::Acted(Letter::LoginRequest))
            }
            (HubPhase::Serving { asked: 0, .. }, Packet::RetransmissionRequest { start, end }) => {
                self.refill(start, end, log)
            }
            (
                HubPhase::Serving { .. } | HubPhase::Filling { .. },
                Packet::Unsequenced { message },
            ) => Ok(Received::Message {
                offset: HEAD_LEN,
                length: message.len(),
            }),
            (HubPhase::Serving { .. } | HubPhase::Filling { .. }, Packet::LogoutRequest { .. }) => {
                self.leave(HubPhase::Shut, accounts);
                Ok(Received::Acted(Letter::LogoutRequest))
            }
            (HubPhase::Filling { next, last }, Packet::SeatHeartbeat) if next > last => {
                self.leave(HubPhase::Shut, accounts);
                Ok(Received::Acted(Letter::SeatHeartbeat))
            }
            (HubPhase::Serving { .. } | HubPhase::Filling { .. }, Packet::SeatHeartbeat) => Ok(
                Received::Acted(Letter::SeatHeartbeat),
            ),
            (HubPhase::Serving { .. } | HubPhase::Filling { .. }, Packet::Test { .. }) => Ok(
                Received::Acted(Letter::Test),
            ),
            _ => Err(PacketFault::OutOfPlace),
        }
    }

    // Decides a login, which is to be answered then.
    fn log_in<G: Log>(&mut self, login: Login<'_>, log: &G, accounts: &mut Accounts)
        ensures { (p : Pair) →
            let held = G.Log.view log.now in
            let before = with_state self.old held accounts.old.rows p in
            let after = with_state self.new held accounts.new.rows p in
            after ≡ logs_in (asked login.entry) before }
    {
        match accounts.admit(login, log.session(), log.count() as u64) {
            Ok(row) => {
                self.row = Some(row);
                self.phase = HubPhase::Answering {
                    asked: login.number,
                };
            }
            Err(status) => self.phase = HubPhase::Rejecting { status },
        }
    }

    // A retransmission is asked for, of what is held now.
    fn refill<G: Log>(&mut self, start: u64, end: u64, log: &G) -> Result<Received, PacketFault>
        ensures { (rows : List Row) (p : Pair) →
            let before = with_state self.old (G.Log.view log.now) rows p in
            let after = with_state self.new (G.Log.view log.now) rows p in
            closing result after ≡ refills start end before }
    {
        if start == 0 {
            return Err(PacketFault::WrongContent(Field::Start));
        }
        if end < start {
            return Err(PacketFault::WrongContent(Field::End));
        }
        self.phase = HubPhase::Filling {
            next: start,
            last: end.min(log.count() as u64),
        };
        Ok(Received::Acted(Letter::RetransmissionRequest))
    }
}
