// The viewing client's engine (document 02: viewing desk): a view is a read that ends with its CARDs.
ghost use Rattle.std.specs.Prelude.{◌≡◌};
ghost use Rattle.protocol.specs.Client.{no_client, begin_read, begin_read_call};
ghost use Rattle.protocol.specs.RegisterReplica.{with_output};
ghost use Rattle.protocol.specs.Viewer.{viewer_step, viewer_call};
ghost use Rattle.client.specs.Stepping.{Calls};
ghost use Rattle.client.specs.Viewing.{ViewerMade, of_viewer};

use crate::Stepped;
use crate::answers::stepped;
use crate::messages::hear;
use crate::role::Role;
use base::party::{ClientId, RegisterId};
use base::refusal::Refusal;
use protocol::client::{Client, ClientAnswer};
use wire::layout::CARD_ROOM;

// A viewing client's record: a client's, but nobody can hand it to `begin_write`.
#[derive(Clone, Copy)]
pub struct Viewer {
    client: Client,
}

// A call's answer, as a client's: the card stands beside Done. One generic struct would have the field `client` for a viewer's record.
#[derive(Drop)]
pub struct ViewerStepped {
    pub answer: ClientAnswer,
    pub card_length: u8,
    pub card: [u8; CARD_ROOM],
    pub viewer: Viewer,
}

// The same of the record within. Arrays go by locals, as in `stepped`.
fn viewed(stepped: Stepped) -> ViewerStepped
    ensures { of_viewer result ≡ stepped }
{
    let card = stepped.card;
    let client = stepped.client;
    ViewerStepped {
        answer: stepped.answer,
        card_length: stepped.card_length,
        card,
        viewer: Viewer { client },
    }
}

// The record of no viewing client, for a place where none is set up.
pub fn nobody() -> Viewer
    ensures { result.client ≡ no_client }
{
    Viewer {
        client: crate::nobody(),
    }
}

// A viewing client before its first view, or refusal 16.
#[tactic(auto, using(crate::proofs::Setups::first_nonce_lem))]
pub fn fresh(f: u8, id: ClientId, first_nonce: u64) -> Result<Viewer, Refusal>
    ensures { ViewerMade f id first_nonce result }
{
    base::party::viewer_setup(f, id, first_nonce)?;
    Ok(Viewer {
        client: crate::idle(f, id, first_nonce - 1),
    })
}

// Begins a view of a register.
pub fn begin_view(viewer: Viewer, register: RegisterId, out: &mut [u8]) -> ViewerStepped
    ensures { Calls (begin_read_call viewer.client register out.old) (with_output out.old (begin_read viewer.client register)) (of_viewer result) out.new }
{
    viewed(crate::begin_read(viewer.client, register, out))
}

// What the viewing client makes of a message of any bytes, with verdicts of any number and value.
pub fn step(viewer: Viewer, message: &[u8], verdicts: &[u8], out: &mut [u8]) -> ViewerStepped
    ensures { Calls (viewer_call viewer.client message.now verdicts.now out.old)
        (with_output out.old (viewer_step viewer.client message.now verdicts.now)) (of_viewer result) out.new }
{
    let client = viewer.client;
    viewed(stepped(client, hear(client, message, verdicts, Role::Viewing, out)))
}
