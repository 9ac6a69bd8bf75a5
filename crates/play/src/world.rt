// What the player keeps from line to line: the four replicas with one register each, the four clients, and the messages sent.
ghost use Rattle.std.specs.Prelude.{◌≡◌, ◌<◌};
ghost use Rattle.protocol.specs.RegisterReplica.{fresh_register_replica};
ghost use Rattle.protocol.specs.Client.{made_client};
ghost use Rattle.play.specs.Worlds.{fresh_world, seat};

use crate::log::Log;
use base::client_set::ClientSet;
use base::party::{ClientId, ReplicaId};
use protocol::client::Client;
use protocol::replica::RegisterReplica;
use register_replica::fresh_register;

#[derive(Drop)]
pub struct World {
    pub replicas: [RegisterReplica; 4],
    pub clients: [Client; 4],
    pub log: Log,
}

const FAULT_BOUND: u8 = 1;

const FIRST_NONCE: u64 = 1;

// A replica's part of the one register that is played on: no message of a session is for another.
fn replica(id: ReplicaId) -> RegisterReplica
    ensures { result ≡ fresh_register_replica 1 id }
{
    RegisterReplica {
        f: FAULT_BOUND,
        id,
        register: fresh_register(),
        withdrawn: ClientSet::nobody(),
    }
}

fn client(id: ClientId) -> Client
    ensures { result ≡ made_client 1 id 1 }
{
    client::fresh(FAULT_BOUND, id, FIRST_NONCE).unwrap_or(client::nobody())
}

#[tactic(auto, unfolding(crate::specs::Worlds::fresh_world))]
fn replicas() -> [RegisterReplica; 4]
    ensures { result ≡ fresh_world.replicas }
{
    [1, 2, 3, 4].map(|i| replica(ReplicaId(i)))
}

// No `map` as in `replicas`: the search for what it gives stops at its limits, since a client's record unfolds there.
#[tactic(auto, unfolding(crate::specs::Worlds::fresh_world))]
fn clients() -> [Client; 4]
    ensures { result ≡ fresh_world.clients }
{
    [
        client(ClientId(1)),
        client(ClientId(2)),
        client(ClientId(3)),
        client(ClientId(4)),
    ]
}

impl World {
    // The world before the first line.
    #[tactic(auto, unfolding(crate::specs::Worlds::fresh_world))]
    pub fn fresh() -> World
        ensures { result ≡ fresh_world }
    {
        World {
            replicas: replicas(),
            clients: clients(),
            log: Log::empty(),
        }
    }
}

// The place among the four of its kind of the party with this number.
#[tactic(auto, unfolding(crate::specs::Worlds::seat))]
pub fn seat(number: u8) -> usize
    ensures { (result ≡ seat number) × (result < 4) }
{
    (usize::from(number) + 3) % 4
}
