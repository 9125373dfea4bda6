//! What a hub is to write next.
//! The answer to a login, the next message, or what follows the last.
ghost use Rattle.std.specs.Prelude.{◌≡◌, List};
ghost use Rattle.account.specs.declared.rows.Row.{Row};
ghost use Rattle.message_log.specs.Calls.{has};
ghost use Rattle.rules.specs.State.{Pair};
ghost use Rattle.rules.specs.Hub.{hub_due};
ghost use Rattle.hub.specs.State.{with_state};
ghost use Rattle.hub.specs.Dues.{due_of, Writable};

use crate::state::HubState;
use framing::BEAT_AFTER;
use message_log::Log;
use packet::Packet;
use rules::HubPhase;
use wire::Status;

/// What is due, and the phase once it is written.
#[derive(Clone, Copy)]
pub(crate) enum Due {
    /// Nothing.
    Nothing,
    /// Nothing, and the hub is to be shut: a fill is sent.
    Shut,
    /// This message of the log.
    Message {
        number: u64,
        then: HubPhase,
    },
    /// This packet.
    Packet {
        packet: Packet<'static>,
        then: HubPhase,
    },
}

impl HubState {
    /// What is due after so many ticks in which nothing was sent, in a session that is finished or not.
    pub(crate) fn due<G: Log>(&self, unsent: u16, finished: bool, log: &G) -> Due
        ensures due { (rows : List Row) (p : Pair) →
            let now = with_state self.now (G.Log.view log.now) rows p in
            p.running.finished ≡ finished → p.hub.unsent ≡ unsent →
            due_of result now ≡ hub_due self.now.phase now }
        ensures valid { Writable (G.Log.view log.now) result }
    {
        let highest = log.count() as u64;
        match self.phase {
            HubPhase::Shut | HubPhase::Waiting => Due::Nothing,
            HubPhase::Answering { asked } => Due::Packet {
                packet: Packet::LoginResponse {
                    status: Status::Accepted,
                    session: log.session(),
                    highest,
                },
                then: HubPhase::Serving {
                    asked,
                    next: if asked == 0 { highest + 1 } else { asked },
                    owed: 0 < asked && asked <= highest,
                },
            },
            HubPhase::Rejecting { status } => Due::Packet {
                packet: Packet::LoginResponse {
                    status,
                    session: 0,
                    highest: 0,
                },
                then: HubPhase::Shut,
            },
            HubPhase::Serving { asked, next, owed } if holds(log, next) => Due::Message {
                number: next,
                then: HubPhase::Serving {
                    asked,
                    next: next + 1,
                    owed,
                },
            },
            HubPhase::Serving {
                asked,
                next,
                owed: true,
            } => Due::Packet {
                packet: Packet::SynchronizationComplete,
                then: HubPhase::Serving {
                    asked,
                    next,
                    owed: false,
                },
            },
            HubPhase::Serving { .. } if finished => Due::Packet {
                packet: Packet::EndOfSession,
                then: HubPhase::Shut,
            },
            HubPhase::Serving { .. } if unsent > BEAT_AFTER => Due::Packet {
                packet: Packet::HubHeartbeat,
                then: self.phase,
            },
            HubPhase::Serving { .. } => Due::Nothing,
            HubPhase::Filling { next, last } if next <= last && holds(log, next) => Due::Message {
                number: next,
                then: HubPhase::Filling {
                    next: next + 1,
                    last,
                },
            },
            HubPhase::Filling { .. } => Due::Shut,
        }
    }
}

// Whether the log holds this message.
fn holds<G: Log>(log: &G, number: u64) -> bool
    ensures { result ≡ has (G.Log.view log.now) number }
{
    (1..=log.count() as u64).contains(&number)
}
