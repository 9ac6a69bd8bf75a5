// The signatures counted in a phase, and the proofs built of them.
ghost use Rattle.std.specs.Prelude.{◌≡◌, ◌≤◌, ◌<◌, length, take};
ghost use Rattle.protocol.specs.Client.{with_signature, gathered};
ghost use Rattle.client.specs.Arrays.{Added, Keeps};

use base::bytes::put;
use base::party::ReplicaId;
use base::replica_set::ReplicaSet;
use wire::layout::{ENTRIES_ROOM, ENTRY, MOST_ENTRIES, SIGNATURE, SIGNATURES_ROOM};

// Entries in an array, how many they are (no heap, fixed memory), and who signed them.
#[derive(Drop)]
pub struct Built {
    pub count: u8,
    pub signers: ReplicaSet,
    pub entries: [u8; ENTRIES_ROOM],
}

impl Built {
    // One entry more.
    fn add(&mut self, id: ReplicaId, signature: &[u8])
        requires { (self.old.count < 11) × (length signature.now ≡ 64) }
        ensures { Added id signature.now self.old self.new }
    {
        let at = ENTRY * usize::from(self.count);
        self.entries[at] = id.0;
        put(&mut self.entries, at + 1, signature);
        self.count += 1;
        self.signers = self.signers.with(id);
    }
}

// A replica's signature in its place.
pub(super) fn keep_signature(
    signatures: &mut [u8; SIGNATURES_ROOM],
    id: ReplicaId,
    signature: &[u8],
)
    requires { (1 ≤ id.0) × (id.0 ≤ 16) × (length signature.now ≡ 64) }
    ensures { signatures.new ≡ with_signature signatures.old id signature.now }
{
    put(signatures, SIGNATURE * usize::from(id.0 - 1), signature);
}

// The counted replicas among 1 to n, in rising order.
pub(super) fn gather(n: u8, counted: ReplicaSet, signatures: &[u8; SIGNATURES_ROOM]) -> Built
    requires { n ≤ 16 }
    ensures { Keeps (take 11 (gathered n counted signatures.now)) result }
{
    let mut built = Built {
        count: 0,
        signers: ReplicaSet::empty(),
        entries: [0; ENTRIES_ROOM],
    };
    for i in 0..n {
        let id = ReplicaId(i + 1);
        if counted.has(id) && built.count < MOST_ENTRIES {
            let from = SIGNATURE * usize::from(i);
            built.add(id, &signatures[from..from + SIGNATURE]);
        }
    }
    built
}
